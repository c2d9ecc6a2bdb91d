ghost use Rattle.std.specs.Prelude.{◌≡◌, length};
ghost use Rattle.script_words.specs.{keyword_beside, keyword_said};

/// The first word of a form.
#[derive(Clone, Copy)]
pub enum Keyword {
    Open,
    Fork,
    Reject,
    Start,
    Succeed,
    Fail,
    Cancel,
    Move,
    Tick,
    Bind,
    Unbind,
    Join,
    Close,
    Closed,
    Retire,
    State,
    Stage,
    ResultOf,
    FaultOf,
    Cause,
    Until,
    Counts,
    Get,
}

/// Each word that a form begins with, and its keyword, by the length of the word: what is compared then has a
/// length that is known. In each table those are first that scripts have most often.
const OF_TWO: [([u8; 2], Keyword); 1] = [(*b"ok", Keyword::Succeed)];

const OF_THREE: [([u8; 3], Keyword); 1] = [(*b"get", Keyword::Get)];

const OF_FOUR: [([u8; 4], Keyword); 7] = [
    (*b"fork", Keyword::Fork),
    (*b"tick", Keyword::Tick),
    (*b"open", Keyword::Open),
    (*b"join", Keyword::Join),
    (*b"bind", Keyword::Bind),
    (*b"fail", Keyword::Fail),
    (*b"move", Keyword::Move),
];

const OF_FIVE: [([u8; 5], Keyword); 7] = [
    (*b"start", Keyword::Start),
    (*b"state", Keyword::State),
    (*b"cause", Keyword::Cause),
    (*b"close", Keyword::Close),
    (*b"stage", Keyword::Stage),
    (*b"fault", Keyword::FaultOf),
    (*b"until", Keyword::Until),
];

const OF_SIX: [([u8; 6], Keyword); 7] = [
    (*b"counts", Keyword::Counts),
    (*b"closed", Keyword::Closed),
    (*b"cancel", Keyword::Cancel),
    (*b"result", Keyword::ResultOf),
    (*b"unbind", Keyword::Unbind),
    (*b"reject", Keyword::Reject),
    (*b"retire", Keyword::Retire),
];

/// The keyword that the word is.
#[tactic(auto, using(crate::proofs::KeywordLengths::said_of_no_length))]
pub fn keyword_of(word: &[u8]) -> Option<Keyword>
    ensures { result ≡ keyword_said word.now }
{
    match word.len() {
        2 => keyword_beside(&OF_TWO, word),
        3 => keyword_beside(&OF_THREE, word),
        4 => keyword_beside(&OF_FOUR, word),
        5 => keyword_beside(&OF_FIVE, word),
        6 => keyword_beside(&OF_SIX, word),
        _ => None,
    }
}

/// The keyword that the table has beside the word.
#[inline(always)]
fn keyword_beside<const N: usize>(table: &[([u8; N], Keyword)], word: &[u8]) -> Option<Keyword>
    requires { length word.now ≡ N }
    ensures { result ≡ keyword_beside table.now word.now }
{
    let (word, _) = word.split_first_chunk::<N>()?;
    let mut rows = table;
    while let [row, others @ ..] = rows {
        if *word == row.0 {
            return Some(row.1);
        }
        rows = others;
    }
    None
}
