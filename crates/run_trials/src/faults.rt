// The first fault of a script, by hand from the grammar.

use super::fault_cases::first_wrong;

// Whole scripts. The first line is the header; the last line may be cut off; types come before
// commands; letters, callbacks, bytes and lines have limits, and long words are read whole, also one
// that is the whole input.
const SCRIPTS: &str = "\
|1 1
/|1 1
/oilpan 1/|1 1
oilpan/|1 1
oilpan 3/|1 1
oilpan 02/|1 1
oilpan 22/|1 1
oilpan 1 1/|1 1
oilpan 2 1/|1 1
oilpan//2/|1 1
oilpan 1\r/|1 1
oilpan\t1/|1 1
  oilpan   1  |none
oilpan 1//   /|none
 oilpan  2 |none
oilpan 2/type S/type - pre 0/new 0 1/|none
oilpan 1/type S/new 0 0/set 0|4 4
oilpan 1/type S/new 0 0/threads join|4 7
oilpan 1/at 1 totals/threads go/set 0|4 4
oilpan 1/at 1 totals/threads go/threads|4 4
oilpan 1/drop 0/drop 256/drop x/|3 5
oilpan 1//type -//type S/stat/|none
oilpan 1/stat/type S/|3 6
oilpan 1/stat/type X/|3 2
oilpan 1/stat/type S pre 1/|3 5
oilpan 1/type S/new 0 1/type S/|3 5
oilpan 1/type S/at 1 totals/type S/|4 6
oilpan 1/at 1 totals/threads go/type S/|4 6
oilpan 1/at 1 totals/threads go/type S x/|4 2
oilpan 1/type SWEP pre 0/type |W|64||none
oilpan 1/type SWEP pre 0/type |W|64|P|3 5
oilpan 1/type SWEP pre 0/type |W|64|P-|3 2
oilpan 1/type SWEP pre 0/type S pre| 0|16||none
oilpan 1/type SWEP pre 0/type S pre| 0|16| 0|3 5
oilpan 1/type SWEP pre 0/type S pre| 0|16| 0 x|3 3
oilpan 1/type SW weak 0/|2 2
oilpan 1/type SW weak/|2 2
oilpan 1/type SW pre 0 weak 0/|2 3
oilpan 1/type SW pre weak/|2 3
oilpan 2/type SW weak/|2 4
oilpan 2/stat/type SW weak/|3 4
oilpan 2/stat/type SW weak 0/|3 6
oilpan 2/type S weak| 0|16||none
oilpan 2/type S weak| 0|16| 0|2 5
oilpan 2/type S weak| 0|16| 0 x|2 3
oilpan 2/type S pre| 0|16| weak 0|none
oilpan 2/type S pre| 0|16| 0 weak 0|2 5
oilpan 2/type S pre| 0|16| 0 weak|2 4
oilpan 2/type S pre 0 weak| 0|16||none
oilpan 2/type S pre 0 weak| 0|16| 0|2 5
oilpan 2/type |P|64| weak 0|none
oilpan 2/type |P|64|P weak 0|2 5
oilpan 2/type |E|32| weak 0|none
oilpan 2/type |E|31|PP weak 0|none
oilpan 2/type P|E|32| weak 0|2 5
oilpan 2/type |E|33| weak 0|2 5
oilpan 2/type |E|33| weak|2 4
oilpan 2/type |E|33| pre 0|none
oilpan 2/type |E|64||none
oilpan 1/type SWEP pre 0/drop |1|70000||3 3
oilpan 1/type SWEP pre 0/|s|70000||3 2
oilpan 1/foo/|/|999998||2 2
oilpan 1/foo/|/|999998| |0 8
oilpan 1/|/|999999||none
oilpan 1/|drop 0/|999999||none
oilpan 1/|drop 0/|1000000||0 8
oilpan 1/|/|999999|/|0 8
oilpan 1| |16777208||none
oilpan 1| |16777208| |0 8
|o|16777215|o|1 1
oilpan 1/|s|16777207||2 2
oilpan 1/|s|16777207|s|0 8
oilpan 1/drop |1|16777202||2 3
oilpan 1/drop 0| |16777201||none
";

#[test]
fn scripts_have_their_first_fault(rt: HostRuntime) {
    let wrong = first_wrong(rt.alloc(), "", SCRIPTS);
    assert_eq!(rt; wrong, None);
}

// A line of its own, after one type and with one callback, and the lowest reason that it has. At the
// end both edges of each range.
const LINES: &str = "\
foo|3 2
foo x y z|3 2
Drop 0|3 2
drop\t0|3 2
drop\00|3 2
gc stop|3 2
gc stop x|3 2
gc now exact|3 2
gc finish Precise|3 2
at x cop 0 y|3 2
threads stop|3 2
type SX|3 2
type S-|3 2
type --|3 2
type X pre|3 2
type S pro|3 2
type S pro x|3 2
type Sx pre x|3 2
drop x|3 3
drop -|3 3
drop +1|3 3
drop 00|3 3
drop 01|3 3
drop 0\r|3 3
drop 18446744073709551616|3 3
put 0 0 18446744073709551616|3 3
set 0 0 x|3 3
set 0 0 --|3 3
set - 0 0|3 3
pair 0 0 - 1|3 3
pair 0 0 1 -|3 3
pair 999 0 - 1|3 3
pair 0 0 - 1 x|3 3
pair 0 0 x|3 3
new 999 x 0 0|3 3
new 0 0 x|3 3
sweep x|3 3
sweep -|3 3
gc step x|3 3
at x|3 3
at x totals|3 3
type S pre x|3 3
type S pre 9 -|3 3
drop|3 4
drop 0 0|3 4
drop 256 x|3 4
stat 0|3 4
new 0|3 4
new 0 9|3 5
new 0 0 0 0|3 4
set 0 0|3 4
set 999 0|3 4
pair 0 0 -|3 4
pair 0 0 - - -|3 4
gc|3 4
gc start 1|3 4
gc now|3 4
at|3 4
at 9|3 4
at 1|3 4
at 1 copy 0|3 4
at 9 copy 0|3 4
threads|3 4
threads go now|3 4
type|3 4
type S pre|3 4
new 255 0|none
new 256 0|3 5
new 0 0|none
new 0 1|3 5
new 0 0 33554432|none
new 0 0 33554433|3 5
set 255 0 0|none
set 256 0 0|3 5
set 0 67108863 0|none
set 0 67108864 0|3 5
set 0 0 255|none
set 0 0 256|3 5
pair 0 67108863 0 0|none
pair 0 67108864 0 0|3 5
pair 0 0 255 0|none
pair 0 0 256 0|3 5
pair 0 0 0 255|none
pair 0 0 0 256|3 5
put 255 0 18446744073709551615|none
put 256 0 0|3 5
word 0 67108863|none
word 0 67108864|3 5
get 0 0 255|none
get 0 0 256|3 5
key 0 67108863 0|none
key 0 67108864 0|3 5
val 255 0 0|none
val 256 0 0|3 5
copy 0 255|none
copy 0 256|3 5
drop 255|none
drop 18446744073709551615|3 5
weak 63 255|none
weak 64 0|3 5
read 63 255|none
read 0 256|3 5
push 255 67108863|none
push 0 67108864|3 5
push# 18446744073709551615|none
push 256 0|3 5
peek 1023 255|none
peek 1024 0|3 5
gc step 1|none
gc step 0|3 5
gc step 4294967295|none
gc step 4294967296|3 5
sweep 1|none
sweep 0|3 5
sweep 4294967295|none
sweep 4294967296|3 5
sweep all|none
sweep 18446744073709551615|3 5
export 255 31|none
export 0 32|3 5
import 31 255|none
import 32 0|3 5
type S pre 0|none
type S pre 1|3 5
type - pre 0 0|none
type - pre 0 4294967296|3 5
";

#[test]
fn lines_have_their_lowest_reason(rt: HostRuntime) {
    let wrong = first_wrong(rt.alloc(), "oilpan 1/type SWEP pre 0/", LINES);
    assert_eq!(rt; wrong, None);
}

// A line of version 2, after one type and with one callback: where the lists of a type line end, and
// each place where the line can be cut off.
const WEAK_LINES: &str = "\
type S|none
type S pre 0|none
type S weak 0|none
type - weak 0 0|none
type SWEP pre 0 weak 0|none
type S  pre 0  0 weak  0 0 |none
weak 0 0|none
typ|3 2
type|3 4
type S p|3 2
type S pr|3 2
type S pre|3 4
type S pre 0 w|3 3
type S pre 0 we|3 3
type S pre 0 wea|3 3
type S pre 0 weak|3 4
type S w|3 2
type S we|3 2
type S wea|3 2
type S weak|3 4
type S wea x|3 2
type S weakk 0|3 2
type S Weak 0|3 2
type S - weak 0|3 2
type S 0 weak 0|3 2
type SX weak 0|3 2
type X weak|3 2
type weak 0|3 2
type S pre 0 pre 0|3 3
type S pre 0 weakk 0|3 3
type S pre x weak 0|3 3
type S pre 0 weak x|3 3
type S pre weak x|3 3
type S pre 9 weak -|3 3
type S weak pre 0|3 3
type S weak weak 0|3 3
type S weak 0 weak 0|3 3
type S weak 0 weak|3 3
type S pre 0 weak weak|3 3
type S weak x|3 3
type S weak 00|3 3
type S weak 18446744073709551616|3 3
type S pre weak|3 4
type S pre weak 0|3 4
type S pre weak 9|3 4
type S pre 9 weak|3 4
type S weak 1|3 5
type S pre 0 weak 1|3 5
type S pre 1 weak 0|3 5
type S weak 18446744073709551615|3 5
";

#[test]
fn lists_of_callbacks_have_their_lowest_reason(rt: HostRuntime) {
    let wrong = first_wrong(rt.alloc(), "oilpan 2/type SWEP pre 0/", WEAK_LINES);
    assert_eq!(rt; wrong, None);
}

// Lines after the header: the threads' sections, and the ranges of their orders.
const SECTIONS: &str = "\
at 1 totals/threads go/stat/threads join/|none
at 8 totals/stat//at 1 clear 0/threads go/threads join//|none
threads go/|2 7
threads join/|2 7
at 1 totals/threads join/|3 7
at 1 totals//|2 7
at 1 totals/stat//  /|3 7
at 1 totals/threads go/|3 7
at 1 totals/threads go/at 1 totals/|4 7
at 1 totals/threads go/threads go/|4 7
at 1 totals/threads go/threads join/threads go/|5 7
at 1 totals/threads go/threads join/threads join/|5 7
at 1 totals/threads go/threads join/at 2 totals/stat|6 7
at 1 totals/threads go|3 7
at 1 totals/threads go/stat/ /stat//|6 7
at 1 totals/threads go/threads join// /|none
at 1 totals/at 1 totals/at 8 totals/threads go/threads join/|none
at 1 totals/threads go/at 9 totals/threads join/|4 5
at 1 totals/threads go/at x totals/threads join/|4 3
at 1 totals/threads go/at 1 total/threads join/|4 2
at 1 totals/threads go/drop 256/threads join/|4 5
threads go now/|2 4
threads stay/|2 2
threads join/foo/|2 7
at 1 totals/threads go/threads join/|none
at 8 clear 31/threads go/threads join/|none
at 8 weaken 31/threads go/threads join/|none
at 1 upgrade 31 31/threads go/threads join/|none
at 0 totals/threads go/threads join/|2 5
at 9 totals/threads go/threads join/|2 5
at 1 clear 32/threads go/threads join/|2 5
at 1 weaken 32/threads go/threads join/|2 5
at 1 copy 0 32/threads go/threads join/|2 5
at 1 upgrade 32 0/threads go/threads join/|2 5
";

#[test]
fn threads_have_their_sections(rt: HostRuntime) {
    let wrong = first_wrong(rt.alloc(), "oilpan 1/", SECTIONS);
    assert_eq!(rt; wrong, None);
}
