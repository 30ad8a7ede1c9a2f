// The table of the forms, and the row that a word chooses.

ghost use Rattle.std.specs.Prelude.{◌≡◌, true, IfSome};
ghost use Rattle.gc_graph.specs.Forms.{row_named, rows, gc_rows, at_rows};
ghost use Rattle.command_text.specs.Rows.{SameRow, is_plain_row, is_gc_row, is_at_row};

use super::forms::{Make, Row, Spot};
use super::making::{BareForm, OneForm, OrderForm, SmallForm, ThreeForm, TwoForm};
use super::row_search::{likely_place, row_in, row_near};
use super::spots::{
    EXTRA_WORDS, FIELD, OBJECTS, REGION_SLOT, SLOT, SLOT_OR_NULL, STACK_PLACE, WEAK_SLOT,
};
use super::wide::WideForm;

// The rows of the most frequent lines stand by themselves, since these are read by a row each.
pub(crate) const NEW: Row = Row {
    name: b"new",
    spots: &[SLOT, Spot::TypeNumber, EXTRA_WORDS],
    least: 2,
    make: Make::Small(SmallForm::New),
};

pub(crate) const SET: Row = Row {
    name: b"set",
    spots: &[SLOT, FIELD, SLOT_OR_NULL],
    least: 3,
    make: Make::Small(SmallForm::Set),
};

pub(crate) const PUT: Row = Row {
    name: b"put",
    spots: &[SLOT, FIELD],
    least: 3,
    make: Make::Wide(WideForm::Put),
};

pub(crate) const WORD: Row = Row {
    name: b"word",
    spots: &[SLOT, FIELD],
    least: 2,
    make: Make::Small(SmallForm::Two(TwoForm::Word)),
};

pub(crate) const GET: Row = Row {
    name: b"get",
    spots: &[SLOT, FIELD, SLOT],
    least: 3,
    make: Make::Small(SmallForm::Three(ThreeForm::Get)),
};

pub(crate) const COPY: Row = Row {
    name: b"copy",
    spots: &[SLOT, SLOT],
    least: 2,
    make: Make::Small(SmallForm::Two(TwoForm::Copy)),
};

pub(crate) const DROP: Row = Row {
    name: b"drop",
    spots: &[SLOT],
    least: 1,
    make: Make::Small(SmallForm::One(OneForm::Drop)),
};

pub(crate) const WEAK: Row = Row {
    name: b"weak",
    spots: &[WEAK_SLOT, SLOT],
    least: 2,
    make: Make::Small(SmallForm::Two(TwoForm::Weak)),
};

pub(crate) const READ: Row = Row {
    name: b"read",
    spots: &[WEAK_SLOT, SLOT],
    least: 2,
    make: Make::Small(SmallForm::Two(TwoForm::Read)),
};

static ROWS: [Row; 21] = [
    NEW,
    SET,
    Row {
        name: b"pair",
        spots: &[SLOT, FIELD, SLOT_OR_NULL, SLOT_OR_NULL],
        least: 4,
        make: Make::Small(SmallForm::Pair),
    },
    PUT,
    WORD,
    GET,
    Row {
        name: b"key",
        spots: &[SLOT, FIELD, SLOT],
        least: 3,
        make: Make::Small(SmallForm::Three(ThreeForm::Key)),
    },
    Row {
        name: b"val",
        spots: &[SLOT, FIELD, SLOT],
        least: 3,
        make: Make::Small(SmallForm::Three(ThreeForm::Val)),
    },
    COPY,
    DROP,
    WEAK,
    READ,
    Row {
        name: b"push",
        spots: &[SLOT, FIELD],
        least: 2,
        make: Make::Small(SmallForm::Two(TwoForm::Push)),
    },
    Row {
        name: b"push#",
        spots: &[],
        least: 1,
        make: Make::Wide(WideForm::PushPlain),
    },
    Row {
        name: b"pop",
        spots: &[],
        least: 0,
        make: Make::Small(SmallForm::Bare(BareForm::Pop)),
    },
    Row {
        name: b"peek",
        spots: &[STACK_PLACE, SLOT],
        least: 2,
        make: Make::Small(SmallForm::Two(TwoForm::Peek)),
    },
    Row {
        name: b"sweep",
        spots: &[],
        least: 1,
        make: Make::Wide(WideForm::Sweep),
    },
    Row {
        name: b"stat",
        spots: &[],
        least: 0,
        make: Make::Small(SmallForm::Bare(BareForm::Stat)),
    },
    Row {
        name: b"export",
        spots: &[SLOT, REGION_SLOT],
        least: 2,
        make: Make::Small(SmallForm::Two(TwoForm::Export)),
    },
    Row {
        name: b"import",
        spots: &[REGION_SLOT, SLOT],
        least: 2,
        make: Make::Small(SmallForm::Two(TwoForm::Import)),
    },
    Row {
        name: b"threads",
        spots: &[Spot::GoOrJoin],
        least: 1,
        make: Make::Small(SmallForm::Threads),
    },
];

static GC_ROWS: [Row; 4] = [
    Row {
        name: b"start",
        spots: &[],
        least: 0,
        make: Make::Small(SmallForm::Bare(BareForm::GcStart)),
    },
    Row {
        name: b"step",
        spots: &[OBJECTS],
        least: 1,
        make: Make::Small(SmallForm::One(OneForm::GcStep)),
    },
    Row {
        name: b"finish",
        spots: &[Spot::Want],
        least: 1,
        make: Make::Small(SmallForm::GcFinish),
    },
    Row {
        name: b"now",
        spots: &[Spot::Want],
        least: 1,
        make: Make::Small(SmallForm::GcNow),
    },
];

static AT_ROWS: [Row; 5] = [
    Row {
        name: b"copy",
        spots: &[REGION_SLOT, REGION_SLOT],
        least: 2,
        make: Make::Small(SmallForm::At(OrderForm::Copy)),
    },
    Row {
        name: b"clear",
        spots: &[REGION_SLOT],
        least: 1,
        make: Make::Small(SmallForm::At(OrderForm::Clear)),
    },
    Row {
        name: b"weaken",
        spots: &[REGION_SLOT],
        least: 1,
        make: Make::Small(SmallForm::At(OrderForm::Weaken)),
    },
    Row {
        name: b"upgrade",
        spots: &[REGION_SLOT, REGION_SLOT],
        least: 2,
        make: Make::Small(SmallForm::At(OrderForm::Upgrade)),
    },
    Row {
        name: b"totals",
        spots: &[],
        least: 0,
        make: Make::Small(SmallForm::At(OrderForm::Totals)),
    },
];

/// The row that the first word of a line chooses.
pub(crate) fn row_of(word: &[u8]) -> Option<&'static Row>
    ensures same { SameRow result (row_named word.now rows) }
    ensures sound { IfSome result (λ row. is_plain_row row.now ≡ true) }
{
    row_near(&ROWS, word, likely_place(word))
}

/// The row that the word after `gc` chooses.
pub(crate) fn gc_row_of(word: &[u8]) -> Option<&'static Row>
    ensures same { SameRow result (row_named word.now gc_rows) }
    ensures sound { IfSome result (λ row. is_gc_row row.now ≡ true) }
{
    row_in(&GC_ROWS, word)
}

/// The row that the word after `at` and its thread chooses.
pub(crate) fn at_row_of(word: &[u8]) -> Option<&'static Row>
    ensures same { SameRow result (row_named word.now at_rows) }
    ensures sound { IfSome result (λ row. is_at_row row.now ≡ true) }
{
    row_in(&AT_ROWS, word)
}
