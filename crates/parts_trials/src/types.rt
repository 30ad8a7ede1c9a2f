// Each public call of `type_table` once, on layouts that were worked out by hand.

ghost use Rattle.std.specs.Prelude.{◌≡◌, length, IfOk};

use gc_graph::{Kind, NoMemory};
use std::alloc::Global;
use type_table::{TracedWord, TypeDecl, TypeFault, TypeTable};

/// A strong field, a pair, a weak field and a pair; and a type without fields, with two
/// prefinalizers and a weak callback.
fn two_types(alloc: Global) -> Result<Vec<TypeDecl>, NoMemory>
    ensures { IfOk result (λ types. length types.items ≡ 2) }
{
    let kinds = [Kind::Strong, Kind::Pair, Kind::Weak, Kind::Pair];
    let mut types = Vec::new(alloc);
    let fields = Vec::from_slice(alloc, &kinds)?;
    types.push(TypeDecl::new(fields, Vec::new(alloc), Vec::new(alloc)))?;
    let callbacks = Vec::from_slice(alloc, &[3, 0])?;
    let weak = Vec::from_slice(alloc, &[2])?;
    types.push(TypeDecl::new(Vec::new(alloc), callbacks, weak))?;
    Ok(types)
}

/// So many more types of so many strong fields.
fn with_more(
    alloc: Global,
    mut types: Vec<TypeDecl>,
    count: u32,
    fields: u32,
) -> Result<Vec<TypeDecl>, NoMemory> {
    for _ in 0..count {
        let mut kinds = Vec::new(alloc);
        for _ in 0..fields {
            kinds.push(Kind::Strong)?;
        }
        types.push(TypeDecl::new(kinds, Vec::new(alloc), Vec::new(alloc)))?;
    }
    Ok(types)
}

/// What an object of the first type with one extra word has.
fn fields_are_told(table: &TypeTable) -> bool
    requires { length table.now ≡ 2 }
{
    (table.field_at(0, 1, 0) == Some((Kind::Strong, 2)))
        & (table.field_at(0, 1, 1) == Some((Kind::Pair, 3)))
        & (table.field_at(0, 1, 2) == Some((Kind::Weak, 5)))
        & (table.field_at(0, 1, 3) == Some((Kind::Pair, 6)))
        & (table.field_at(0, 1, 4) == Some((Kind::Plain, 8)))
        & table.field_at(0, 1, 5).is_none()
        & table.field_at(1, 0, 0).is_none()
}

fn words_are_told(table: &TypeTable) -> bool
    requires { length table.now ≡ 2 }
{
    (table.kind_at(0, 2) == Kind::Strong)
        & (table.kind_at(0, 3) == Kind::Pair)
        & (table.kind_at(0, 4) == Kind::Pair)
        & (table.kind_at(0, 5) == Kind::Weak)
        & (table.kind_at(0, 6) == Kind::Pair)
        & (table.kind_at(0, 7) == Kind::Pair)
        & (table.kind_at(0, 8) == Kind::Plain)
        & (table.kind_at(0, 4_294_967_295) == Kind::Plain)
}

fn counts_and_lists_are_told(table: &TypeTable) -> bool
    requires { length table.now ≡ 2 }
{
    (table.count() == 2)
        & (table.field_count(0, 1) == 5)
        & (table.size_of(0, 1) == 9)
        & (table.size_of(1, 33_554_432) == 33_554_434)
        & (table.strong_words(0) == [2].as_slice())
        & (table.weak_words(0) == [5].as_slice())
        & (table.pair_words(0) == [3, 6].as_slice())
        & (table.traced_words(0)
            == [
                TracedWord::StrongAt(2),
                TracedWord::PairAt(3),
                TracedWord::PairAt(6),
            ]
            .as_slice())
        & (table.callbacks(1) == [3, 0].as_slice())
        & (table.weak_callbacks(1) == [2].as_slice())
        & table.weak_callbacks(0).is_empty()
}

fn table_tells(alloc: Global) -> bool {
    let Ok(types) = two_types(alloc) else {
        return false;
    };
    match TypeTable::new(alloc, types, 4) {
        Ok(table) => {
            fields_are_told(&table) & words_are_told(&table) & counts_and_lists_are_told(&table)
        }
        Err(_) => false,
    }
}

/// The types make a table, or have this fault.
fn comes_to(
    alloc: Global,
    types: Result<Vec<TypeDecl>, NoMemory>,
    callbacks: u32,
    told: Option<TypeFault>,
) -> bool {
    let Ok(types) = types else {
        return false;
    };
    match TypeTable::new(alloc, types, callbacks) {
        Ok(_) => told.is_none(),
        Err(fault) => told == Some(fault),
    }
}

/// Types with too many fields after the two types.
fn wide_types(alloc: Global) -> Result<Vec<TypeDecl>, NoMemory> {
    with_more(alloc, two_types(alloc)?, 2, 65)
}

/// The most types, one more with too many fields besides, and the most fields.
fn most_is_taken(alloc: Global) -> bool {
    let over = TypeFault::TooManyTypes { count: 16_384 };
    comes_to(alloc, with_more(alloc, Vec::new(alloc), 16_383, 0), 0, None)
        & comes_to(
            alloc,
            with_more(alloc, Vec::new(alloc), 16_384, 65),
            0,
            Some(over),
        )
        & comes_to(alloc, with_more(alloc, Vec::new(alloc), 2, 64), 0, None)
}

/// One field more with an unknown callback besides, and an unknown callback.
fn faults_are_told(alloc: Global) -> bool {
    let wide = TypeFault::TooManyFields { ty: 2 };
    let unknown = TypeFault::NoCallback { ty: 1, callback: 3 };
    comes_to(alloc, wide_types(alloc), 0, Some(wide))
        & comes_to(alloc, two_types(alloc), 3, Some(unknown))
}

/// A type of a pair and so many weak fields, which has a weak callback.
fn with_weak_callback(
    alloc: Global,
    fields: u32,
    callback: u32,
) -> Result<Vec<TypeDecl>, NoMemory> {
    let mut kinds = Vec::new(alloc);
    kinds.push(Kind::Pair)?;
    for _ in 0..fields {
        kinds.push(Kind::Weak)?;
    }
    let weak = Vec::from_slice(alloc, &[callback])?;
    let mut types = Vec::new(alloc);
    types.push(TypeDecl::new(kinds, Vec::new(alloc), weak))?;
    Ok(types)
}

/// 64 words; one more; and an unknown callback besides.
fn weak_callbacks_are_judged(alloc: Global) -> bool {
    let over = TypeFault::TooManyWords { ty: 0 };
    let unknown = TypeFault::NoCallback { ty: 0, callback: 1 };
    comes_to(alloc, with_weak_callback(alloc, 62, 0), 1, None)
        & comes_to(alloc, with_weak_callback(alloc, 63, 0), 1, Some(over))
        & comes_to(alloc, with_weak_callback(alloc, 63, 1), 1, Some(unknown))
}

#[test]
fn layouts_and_faults_are_told(rt: HostRuntime) {
    assert!(rt; table_tells(rt.alloc()));
    assert!(rt; most_is_taken(rt.alloc()) & faults_are_told(rt.alloc()));
    assert!(rt; weak_callbacks_are_judged(rt.alloc()));
}
