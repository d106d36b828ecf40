// The words that a line of the book begins with.
ghost use Rattle.std.specs.Prelude.{◌≡◌, MatchResult, ◌≢◌};
ghost use Rattle.records.specs.Words.{spelled};
ghost use Rattle.records.specs.declared.fault.RecordFault.{RecordFault as AnyFault};
ghost use Rattle.records.specs.declared.word.Word.{Word as AnyWord};

use crate::fault::RecordFault;

/// The word that a line begins with.
#[derive(Clone, Copy, PartialEq, Debug)]
pub enum Word {
    /// `fact`
    Fact,
    /// `act`
    Act,
    /// `start`
    Start,
    /// `goal`
    Goal,
    /// `step`
    Step,
    /// `swap`
    Swap,
    /// `group`
    Group,
    /// `ungroup`
    Ungroup,
    /// `loosen`
    Loosen,
    /// `replace`
    Replace,
}

// The word with these bytes, if one has them.
impl TryFrom<&[u8]> for Word {
    type Error = RecordFault;

    ghost try_from_gives = { λ bs r. MatchResult r (λ w. bs.now ≡ spelled w) (λ e. (e ≡ AnyFault.Word) × ((w : AnyWord) → bs.now ≢ spelled w)) };

    fn try_from(bytes: &[u8]) -> Result<Word, RecordFault> {
        match bytes {
            b"fact" => Ok(Word::Fact),
            b"act" => Ok(Word::Act),
            b"start" => Ok(Word::Start),
            b"goal" => Ok(Word::Goal),
            b"step" => Ok(Word::Step),
            b"swap" => Ok(Word::Swap),
            b"group" => Ok(Word::Group),
            b"ungroup" => Ok(Word::Ungroup),
            b"loosen" => Ok(Word::Loosen),
            b"replace" => Ok(Word::Replace),
            _ => Err(RecordFault::Word),
        }
    }
}
