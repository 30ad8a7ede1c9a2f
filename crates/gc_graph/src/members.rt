// A set of nodes as a list of its members.

ghost use Rattle.std.specs.Prelude.{◌≡◌, ◌↔◌, IsTrue};
ghost use Rattle.std.specs.List.{list_all};
ghost use Rattle.std.specs.List.Sorted.{IsNonDecreasing};
ghost use Rattle.gc_graph.specs.Checking.{is_listed};

use std::marker::Model;

/// The members, and whether they ascend. Where they do, a member is found by halving.
#[derive(Drop)]
pub struct Members<'a> {
    numbers: &'a [u32],
    ascending: bool,
}

impl<'a> Model for Members<'a> {
    ghost use Rattle.std.specs.Prelude.{◌↔◌, ℕ, List, IsTrue};
    ghost use Rattle.std.specs.List.Sorted.{IsNonDecreasing};

    ghost Value = { List ℕ };

    ghost view = { λ m. m.numbers.now };

    ghost invariant = { λ m. IsTrue m.ascending ↔ IsNonDecreasing m.numbers.now };
}

impl<'a> Members<'a> {
    pub fn new(numbers: &'a [u32]) -> Members<'a>
        ensures { result ≡ numbers.now }
    {
        Members {
            numbers,
            ascending: is_ascending(numbers),
        }
    }

    pub fn numbers(&self) -> &[u32]
        ensures { result.now ≡ self.now }
    {
        self.numbers
    }

    /// Whether a number is a member.
    pub fn has(&self, n: u32) -> bool
        ensures { result ≡ is_listed self.now n }
    {
        if self.ascending {
            finds(self.numbers, n)
        } else {
            self.numbers.contains(&n)
        }
    }

    /// Whether each of the numbers is a member.
    pub fn has_all(&self, numbers: &[u32]) -> bool
        ensures { result ≡ list_all (is_listed self.now) numbers.now }
    {
        for n in numbers {
            if !self.has(*n) {
                return false;
            }
        }
        true
    }
}

fn is_ascending(numbers: &[u32]) -> bool
    ensures { IsTrue result ↔ IsNonDecreasing numbers.now }
{
    numbers.is_sorted()
}

/// Whether a number is one of ascending ones.
fn finds(numbers: &[u32], n: u32) -> bool
    requires { IsNonDecreasing numbers.now }
    ensures { result ≡ is_listed numbers.now n }
{
    match numbers.binary_search(&n) {
        Ok(_) => true,
        Err(_) => false,
    }
}
