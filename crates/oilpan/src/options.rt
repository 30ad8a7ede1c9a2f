// How a heap is made.

ghost use Rattle.std.specs.Prelude.{◌≡◌};

/// How many pages a heap has, how many words a page, and how many markers run beside its owner.
///
/// | field | values | default |
/// |---|---|---|
/// | `pages` | 1 to 1,024 | 64 |
/// | `page_words` | powers of two from 256 to 16,384 | 16,384 |
/// | `markers` | 0 to 8 | 0 |
#[derive(Clone, Copy, Debug, PartialEq, Eq, Drop)]
pub struct HeapOptions {
    pub pages: u32,
    pub page_words: u32,
    pub markers: u32,
}

impl Default for HeapOptions {
    ghost is_default = { λ o. o ≡ record { pages = 64; page_words = 16384; markers = 0 } };

    fn default() -> HeapOptions {
        HeapOptions {
            pages: 64,
            page_words: 16384,
            markers: 0,
        }
    }
}
