// What a program holds of its heap. None of these is `Drop`: whoever holds one gives it back.

ghost use Rattle.std.specs.Prelude.{◌≡◌, ◌<◌};

/// What keeps an object alive (`Persistent`, `include/cppgc/persistent.h`): a strong slot, and the number
/// of the node that it names.
pub struct Root {
    pub(crate) slot: u32,
    pub(crate) node: u32,
    pub ghost in_range: { slot < 256 },
}

/// What tells whether an object lives (`WeakPersistent`, `include/cppgc/persistent.h`): a weak slot, and
/// the number of the node that it named at first.
pub struct WeakRoot {
    pub(crate) slot: u32,
    pub(crate) node: u32,
    pub ghost in_range: { slot < 64 },
}

/// What keeps an object alive until a thread has cleared it (`CrossThreadPersistent`,
/// `include/cppgc/cross-thread-persistent.h`): a slot of the region, and the number of the node that it
/// names.
pub struct SharedRoot {
    pub(crate) slot: u32,
    pub(crate) node: u32,
    pub ghost in_range: { slot < 32 },
}

impl Root {
    /// The number of the object, by which it is told as finalised. Each object has another.
    pub fn number(&self) -> u32
        ensures { result ≡ self.now.node }
    {
        self.node
    }
}

impl WeakRoot {
    /// The number of the object that the weak root was made for.
    pub fn number(&self) -> u32
        ensures { result ≡ self.now.node }
    {
        self.node
    }
}

impl SharedRoot {
    /// The number of the object.
    pub fn number(&self) -> u32
        ensures { result ≡ self.now.node }
    {
        self.node
    }
}
