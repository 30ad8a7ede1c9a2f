// What a header word tells.

ghost use Rattle.std.specs.Prelude.{◌≡◌, ℕ, ◌+◌, ◌*◌, ◌/◌, ◌%◌, ◌^◌, ◌<◌, ◌↔◌};
ghost use Rattle.std.specs.Prelude.{Bool, true, Some, IfSome, IsSome};
ghost use Rattle.object_headers.specs.Layout.{header_word, IsHeaderWord};

/// The header of a live object. `ty` is the number of its type and `size` its size in words.
#[derive(Clone, Copy, Debug, PartialEq, Eq, Drop)]
pub struct Header {
    pub mark: bool,
    pub traced: bool,
    pub ty: u32,
    pub size: u32,
}

impl Header {
    /// The word of a header.
    pub fn pack(live: bool, mark: bool, traced: bool, ty: u32, size: u32) -> u64
        requires ty { ty < 16384 }
        requires size { size < 2 ^ 26 }
        ensures { result ≡ header_word live mark traced ty size }
    {
        u64::from(live)
            | u64::from(mark) << 1
            | u64::from(traced) << 2
            | u64::from(ty) << 3
            | u64::from(size) << 17
    }

    /// The header of a word, where it is the word of a live object with a size.
    pub fn read(word: u64) -> Option<Header>
        ensures header { IsSome result ↔ IsHeaderWord word }
        ensures packed { IfSome result (λ h. word ≡ header_word true h.mark h.traced h.ty h.size) }
        ensures fits { IfSome result (λ h. (h.ty < 16384) × (0 < h.size) × (h.size < 2 ^ 26)) }
        ensures exact { (mark traced : Bool) (ty size : ℕ) → ty < 16384 → 0 < size → size < 2 ^ 26
            → word ≡ header_word true mark traced ty size
            → result ≡ Some (record { mark = mark; traced = traced; ty = ty; size = size }) }
    {
        if word & 1 == 0 || word >> 17 == 0 || word >> 43 != 0 {
            return None;
        }
        Some(Header::read_unchecked(word))
    }

    /// The same for a word that is known to be such a header. It tests nothing.
    pub fn read_unchecked(word: u64) -> Header
        requires { IsHeaderWord word }
        ensures packed { word
            ≡ header_word true result.mark result.traced result.ty result.size }
        ensures fits { (result.ty < 16384) × (0 < result.size) × (result.size < 2 ^ 26) }
        ensures exact { (mark traced : Bool) (ty size : ℕ) → ty < 16384 → 0 < size → size < 2 ^ 26
            → word ≡ header_word true mark traced ty size
            → result ≡ record { mark = mark; traced = traced; ty = ty; size = size } }
    {
        Header {
            mark: word >> 1 & 1 == 1,
            traced: word >> 2 & 1 == 1,
            ty: Header::type_in(word),
            size: (word >> 17) as u32,
        }
    }

    /// The number of the type that the word of an object's header tells. It tests nothing.
    pub fn type_in(word: u64) -> u32
        ensures bits { result ≡ word / 8 % 16384 }
        ensures header { (live mark traced : Bool) (ty size : ℕ) → ty < 16384
            → word ≡ header_word live mark traced ty size → result ≡ ty }
    {
        (word >> 3 & 16383) as u32
    }
}
