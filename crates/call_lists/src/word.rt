// The first words of the statements, and how many fields follow each.
ghost use Rattle.std.specs.Prelude.{◌≡◌, MatchResult, ◌≢◌};
ghost use Rattle.call_lists.specs.declared.reason.Reason.TheVariants.{UnknownStatement};
ghost use Rattle.call_lists.specs.declared.word.Word.{Word};
ghost use Rattle.call_lists.specs.Words.{counted, least_of, name_of};

use crate::reason::Reason;
use std::str::FromStr;

#[derive(Clone, Copy)]
pub(crate) enum Word {
    Memory,
    Queue,
    Fail,
    Page,
    Row,
    Start,
    Link,
    Old,
    Replace,
    Next,
    Stabilize,
    Pop,
    Take,
    Books,
}

impl FromStr for Word {
    type Err = Reason;

    ghost from_str_gives = { λ text r. MatchResult r (λ w. text ≡ name_of w) (λ e. (e ≡ UnknownStatement) × ((w : Word) → text ≢ name_of w)) };

    // The word that is written so.
    fn from_str(text: &str) -> Result<Word, Reason> {
        match text {
            "memory" => Ok(Word::Memory),
            "queue" => Ok(Word::Queue),
            "fail" => Ok(Word::Fail),
            "page" => Ok(Word::Page),
            "row" => Ok(Word::Row),
            "start" => Ok(Word::Start),
            "link" => Ok(Word::Link),
            "old" => Ok(Word::Old),
            "replace" => Ok(Word::Replace),
            "next" => Ok(Word::Next),
            "stabilize" => Ok(Word::Stabilize),
            "pop" => Ok(Word::Pop),
            "take" => Ok(Word::Take),
            "books" => Ok(Word::Books),
            _ => Err(Reason::UnknownStatement),
        }
    }
}

// The number of fields: the fewest of a bottom host, which takes blobs behind them, and the only one of all others.
fn least_fields(word: Word) -> usize
    ensures { result ≡ least_of word }
{
    match word {
        Word::Memory | Word::Queue | Word::Page => 2,
        Word::Fail | Word::Next | Word::Stabilize => 1,
        Word::Row | Word::Old => 5,
        Word::Start => 4,
        Word::Link => 6,
        Word::Replace => 7,
        Word::Pop | Word::Take | Word::Books => 0,
    }
}

// Whether that many fields may follow the word.
pub(crate) fn count_fields(word: Word, count: usize) -> Result<(), Reason>
    ensures { result ≡ counted word count }
{
    let least = least_fields(word);
    if count < least {
        return Err(Reason::MissingField);
    }
    match word {
        Word::Memory | Word::Queue => Ok(()),
        _ if count == least => Ok(()),
        _ => Err(Reason::SurplusField),
    }
}
