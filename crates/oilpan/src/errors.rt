// Why a call did nothing.

ghost use Rattle.std.specs.Prelude.{◌≡◌};
ghost use Rattle.oilpan.specs.GetErrors.{get_error};

use thiserror::Error;

/// Which handles are all given out: 256 roots, or 64 weak roots.
#[derive(Clone, Copy, Debug, PartialEq, Eq, Drop, Error)]
pub enum HandleError {
    #[error("all roots are given out")]
    Roots,
    #[error("all weak roots are given out")]
    WeakRoots,
}

/// Why a root wasn't shared, or a shared root gave none.
#[derive(Clone, Copy, Debug, PartialEq, Eq, Drop, Error)]
pub enum ShareError {
    #[error("no memory")]
    Memory,
    #[error("all shared roots, or all roots, are given out")]
    Handles,
}

/// Why no object was made. Only a type with prefinalizers wants memory.
#[derive(Clone, Copy, Debug, PartialEq, Eq, Drop, Error)]
pub enum MakeError {
    #[error("the heap is full")]
    Full,
    #[error("no memory")]
    Memory,
    #[error("all roots are given out")]
    Handles,
}

/// Why a field wasn't written.
#[derive(Clone, Copy, Debug, PartialEq, Eq, Drop, Error)]
pub enum FieldError {
    #[error("the object has no such field")]
    Field,
    #[error("the field is of another kind")]
    Kind,
}

/// Why a field wasn't read into a root.
#[derive(Clone, Copy, Debug, PartialEq, Eq, Drop, Error)]
pub enum GetError {
    #[error("the object has no such field")]
    Field,
    #[error("the field is of another kind")]
    Kind,
    #[error("all roots are given out")]
    Handles,
}

impl From<FieldError> for GetError {
    ghost from_gives = { λ why error. error ≡ get_error why };

    fn from(why: FieldError) -> GetError {
        match why {
            FieldError::Field => GetError::Field,
            FieldError::Kind => GetError::Kind,
        }
    }
}

/// Why no collection was started.
#[derive(Clone, Copy, Debug, PartialEq, Eq, Drop, Error)]
pub enum StartError {
    #[error("a collection is marking")]
    Marking,
    #[error("no memory")]
    Memory,
}

/// No collection is marking that could go on.
#[derive(Clone, Copy, Debug, PartialEq, Eq, Drop, Error)]
#[error("no collection is marking")]
pub struct NotMarking;

/// No sweep is open that could go on.
#[derive(Clone, Copy, Debug, PartialEq, Eq, Drop, Error)]
#[error("no sweep is open")]
pub struct NotSweeping;
