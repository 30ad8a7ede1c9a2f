//! # The fields of objects
//!
//! What it is: reads and writes of one field word of an object, by the kind of its field. A field
//! is named by its holder's place and by the offset of its word, as `TypeTable::field_at` tells it.
//!
//! The parts: `get`, `set` and `clear` (`members`), `set_weak` (`weak_members`), `get_word` and
//! `put_word` (`plain_words`), `read_pair`, `set_pair` and `clear_pair` (`pairs`), and two laws,
//! `words_keep_their_kind` and `write_is_of_one_word`. Inside, `barrier` marks what was stored, and
//! `words` goes from holder and offset to the address. The next level down is `page_words`.
//!
//! | field | read by | written by | it holds |
//! |---|---|---|---|
//! | strong | `get` | `set`, `clear` | 0 for null, else a reference |
//! | weak | `get` | `set_weak` | 0 for null, else a reference |
//! | pair | `read_pair` | `set_pair`, `clear_pair` | key and value: both 0 for null, else a reference each |
//! | plain, or an extra word | `get_word` | `put_word` | any number |
//!
//! What is proved: each read answers the word that the view tells and changes nothing. Each write
//! changes exactly the words that it names. While marking goes on, what a strong field or a pair's
//! value comes to name is marked by the call and no other object is; it is listed exactly where the
//! call set the mark, and a refused push is told. So nothing waits for its mark after a call. Each
//! call asks for a word of its kind, which a word has one of, and a reference that is written names
//! an object. A pair's value is stored, and has its mark, before its key is stored.
//!
//! What is only tested or not said: that what is read of a strong or weak field is null or names an
//! object is not said here; whoever writes all the words knows it.
#![tactic(auto)]

mod barrier;
mod members;
mod pairs;
mod plain_words;
mod weak_members;
mod words;

pub use members::{clear, get, set};
pub use pairs::{clear_pair, read_pair, set_pair};
pub use plain_words::{get_word, put_word};
pub use weak_members::set_weak;
pub use words::{words_keep_their_kind, write_is_of_one_word};
