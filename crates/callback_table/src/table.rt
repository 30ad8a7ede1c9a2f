// The callbacks of a program, by number.

ghost use Rattle.std.specs.Prelude.{◌<◌, ◌^◌, length};

use crate::callback::Callback;

/// Callbacks, numbered from 0.
#[derive(Drop)]
pub struct CallbackTable {
    pub(crate) list: Vec<Callback>,
    pub ghost few: { length list.items < 2 ^ 32 },
}
