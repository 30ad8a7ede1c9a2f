// The values that an option may have. Each reader tells what was asked for, which is nothing where the
// option has no text, and tells none where the text can't be read.

ghost use Rattle.std.specs.Prelude.{◌≡◌, ◌≤◌, true, IfSome, option_map};
ghost use Rattle.command_line.specs.Settings.{is_page_size, most_markers, number_of_word};
ghost use Rattle.command_line.specs.Settings.{number_within as within, page_size_of as size_of};
ghost use Rattle.command_line.specs.Heard.{read_if_given};

use line_words::number;

const MOST_MARKERS: u32 = 8;

// The number from `least` to `most` that a text is.
fn number_within(least: u32, most: u32, text: Option<&str>) -> Option<Option<u32>>
    ensures number { result ≡ read_if_given (within least most)
        (option_map (λ s. s.now) text.entry) }
    ensures range { IfSome result (λ asked. IfSome asked (λ n. (least ≤ n) × (n ≤ most))) }
{
    let Some(text) = text else {
        return Some(None);
    };
    match number(text.as_bytes()) {
        Some(value) if value >= u64::from(least) && value <= u64::from(most) => {
            Some(Some(value as u32))
        }
        _ => None,
    }
}

/// The number of pages that a text asks for.
pub(crate) fn pages_of(text: Option<&str>) -> Option<Option<u32>>
    ensures number { result ≡ read_if_given (within 1 1024) (option_map (λ s. s.now) text.entry) }
    ensures range { IfSome result (λ asked. IfSome asked (λ n. (1 ≤ n) × (n ≤ 1024))) }
{
    number_within(1, 1024, text)
}

/// The number of markers that a text asks for.
pub(crate) fn markers_of(text: Option<&str>) -> Option<Option<u32>>
    ensures number { result ≡ read_if_given (within 0 most_markers)
        (option_map (λ s. s.now) text.entry) }
    ensures range { IfSome result (λ asked. IfSome asked (λ n. n ≤ most_markers)) }
{
    number_within(0, MOST_MARKERS, text)
}

/// The number of turns that a text asks for.
pub(crate) fn count_of(text: Option<&str>) -> Option<Option<u32>>
    ensures number { result ≡ read_if_given (within 1 50000) (option_map (λ s. s.now) text.entry) }
    ensures range { IfSome result (λ asked. IfSome asked (λ n. (1 ≤ n) × (n ≤ 50000))) }
{
    number_within(1, 50_000, text)
}

/// The seed that a text asks for.
pub(crate) fn seed_of(text: Option<&str>) -> Option<Option<u64>>
    ensures { result ≡ read_if_given number_of_word (option_map (λ s. s.now) text.entry) }
{
    let Some(text) = text else {
        return Some(None);
    };
    Some(Some(number(text.as_bytes())?))
}

/// The number of a page's words that a text asks for.
pub(crate) fn page_size_of(text: Option<&str>) -> Option<Option<u32>>
    ensures number { result ≡ read_if_given size_of (option_map (λ s. s.now) text.entry) }
    ensures power { IfSome result (λ asked. IfSome asked (λ n. is_page_size n ≡ true)) }
{
    match number_within(256, 16_384, text)? {
        Some(words @ (256 | 512 | 1024 | 2048 | 4096 | 8192 | 16_384)) => Some(Some(words)),
        Some(_) => None,
        None => Some(None),
    }
}
