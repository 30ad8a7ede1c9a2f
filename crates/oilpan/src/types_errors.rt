// Why declared objects make no types.

ghost use Rattle.std.specs.Prelude.{◌≡◌, ℕ};
ghost use Rattle.type_table.specs.declared.faults.TypeFault.TheVariants.{TooManyWords};
ghost use Rattle.oilpan.specs.FaultErrors.{IsErrorOf};

use thiserror::Error;
use type_table::TypeFault;

/// Which limit is met, in the order in which it is tested, but for want of memory. Types are
/// numbered from 0 in the order in which their objects are declared.
#[derive(Debug, PartialEq, Eq, Drop, Error)]
pub enum TypesError {
    #[error("{count} types, over 16383")]
    TooManyTypes { count: u64 },
    #[error("type {ty} has over 64 fields")]
    TooManyFields { ty: u32 },
    #[error("type {ty} names callback {callback}, which there is none of")]
    NoCallback { ty: u32, callback: u32 },
    #[error("type {ty} has over 16 prefinalizers")]
    TooManyPrefinalizers { ty: u32 },
    #[error("no memory")]
    NoMemory,
}

/// The types' own limits.
pub(crate) fn error_of(fault: TypeFault) -> TypesError
    requires { (ty : ℕ) → ¬ (fault ≡ TooManyWords ty) }
    ensures { IsErrorOf fault result }
{
    match fault {
        TypeFault::TooManyTypes { count } => TypesError::TooManyTypes { count },
        TypeFault::TooManyFields { ty } => TypesError::TooManyFields { ty },
        TypeFault::NoCallback { ty, callback } => TypesError::NoCallback { ty, callback },
        TypeFault::TooManyWords { .. } => unreachable!(),
        TypeFault::NoMemory => TypesError::NoMemory,
    }
}
