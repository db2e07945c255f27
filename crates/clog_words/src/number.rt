//! Numbers among words: one to ten digits, leading zeros allowed, and no sign.
ghost use Rattle.std.specs.Prelude.{ℕ, MatchOption};
ghost use Rattle.clog_words.specs.Numbers.{IsNumberWithin};

// The number that the text writes, where it lies from `least` to `most`, both included.
pub(crate) fn number_within(text: &str, least: u32, most: u32) -> Option<u32>
    ensures { MatchOption result ((n : ℕ) → ¬ IsNumberWithin least most text.now n)
        (IsNumberWithin least most text.now) }
{
    if text.len() > 10 || text.starts_with('+') {
        return None;
    }
    let Ok(number) = text.parse::<u32>() else {
        return None;
    };
    if number < least || number > most {
        return None;
    }
    Some(number)
}
