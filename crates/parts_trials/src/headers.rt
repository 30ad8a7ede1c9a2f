// Header words that were worked out by hand: 131072 for each word of the size, and 8 for each type.

ghost use Rattle.std.specs.Prelude.{◌<◌, ◌^◌};

use object_headers::{Header, place_in, reference_to, with_mark, with_traced};

/// The word is that of the header, and read as it.
fn is_word_of(word: u64, mark: bool, traced: bool, ty: u32, size: u32) -> bool
    requires ty { ty < 16384 }
    requires size { size < 2 ^ 26 }
{
    let header = Header {
        mark,
        traced,
        ty,
        size,
    };
    (Header::pack(true, mark, traced, ty, size) == word)
        & (Header::read(word) == Some(header))
        & (Header::type_in(word) == ty)
}

fn headers_have_their_words() -> bool {
    is_word_of(393217, false, false, 0, 3)
        & is_word_of(393219, true, false, 0, 3)
        & is_word_of(393223, true, true, 0, 3)
        & is_word_of(524297, false, false, 1, 4)
        & is_word_of(8796093022207, true, true, 16383, 67108863)
        & (Header::pack(false, false, false, 1, 4) == 524296)
}

/// Nothing, a word that is not live, one with no size, and two with a bit above bit 42.
fn other_words_are_no_headers() -> bool {
    Header::read(0).is_none()
        & Header::read(393216).is_none()
        & Header::read(131071).is_none()
        & Header::read(8796093415425).is_none()
        & Header::read(9223372036855169025).is_none()
}

fn one_bit_changes() -> bool {
    (with_mark(393217, true) == 393219)
        & (with_mark(393223, false) == 393221)
        & (with_traced(393219, true) == 393223)
        & (with_traced(393223, false) == 393219)
}

fn references_tell_their_places() -> bool {
    (reference_to(0) == 1)
        & (reference_to(70) == 71)
        & (place_in(71) == Some(70))
        & place_in(0).is_none()
}

#[test]
fn words_worked_out_by_hand(rt: HostRuntime) {
    assert!(rt; headers_have_their_words() & other_words_are_no_headers());
    assert!(rt; one_bit_changes() & references_tell_their_places());
}
