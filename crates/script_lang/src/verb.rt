ghost use Rattle.std.specs.Prelude.{◌≡◌, map};
ghost use Rattle.script_lang.specs.Lines.{verb_named, verb_of_word};

/// The first word of a line, which says what the line is for.
#[derive(Clone, Copy, Debug, PartialEq, Eq)]
pub enum Verb {
    Group,
    Member,
    Client,
    Mirror,
    Publish,
    Withdraw,
    Deliver,
    Sync,
    Advance,
    Fire,
    Restart,
    Vector,
    Catalogue,
    Claim,
    Lose,
    Answer,
    Fetch,
    Settle,
    Dump,
    Hear,
    Order,
    Ask,
    Feed,
    Insert,
    Block,
    Status,
    Delete,
    Watch,
    Told,
    Mdeliver,
    Mfetch,
    Mcatalogue,
    Summary,
    Traffic,
}

const VERBS: [(&str, Verb); 34] = [
    ("group", Verb::Group),
    ("member", Verb::Member),
    ("client", Verb::Client),
    ("mirror", Verb::Mirror),
    ("publish", Verb::Publish),
    ("withdraw", Verb::Withdraw),
    ("deliver", Verb::Deliver),
    ("sync", Verb::Sync),
    ("advance", Verb::Advance),
    ("fire", Verb::Fire),
    ("restart", Verb::Restart),
    ("vector", Verb::Vector),
    ("catalogue", Verb::Catalogue),
    ("claim", Verb::Claim),
    ("lose", Verb::Lose),
    ("answer", Verb::Answer),
    ("fetch", Verb::Fetch),
    ("settle", Verb::Settle),
    ("dump", Verb::Dump),
    ("hear", Verb::Hear),
    ("order", Verb::Order),
    ("ask", Verb::Ask),
    ("feed", Verb::Feed),
    ("insert", Verb::Insert),
    ("block", Verb::Block),
    ("status", Verb::Status),
    ("delete", Verb::Delete),
    ("watch", Verb::Watch),
    ("told", Verb::Told),
    ("mdeliver", Verb::Mdeliver),
    ("mfetch", Verb::Mfetch),
    ("mcatalogue", Verb::Mcatalogue),
    ("summary", Verb::Summary),
    ("traffic", Verb::Traffic),
];

impl Verb {
    /// The verb that a word is.
    pub fn of(word: &str) -> Option<Verb>
        ensures { result ≡ verb_of_word word.now }
    {
        named(&VERBS, word)
    }
}

// The verb that stands beside the word.
#[tactic(auto, unfolding(crate::specs::Lines::verb_named))]
fn named(rows: &[(&str, Verb)], word: &str) -> Option<Verb>
    ensures { result ≡ verb_named (map (λ row. (row.0.now, row.1)) rows.now) word.now }
{
    let mut rest = rows;
    while let [(text, verb), others @ ..] = rest {
        if *text == word {
            return Some(*verb);
        }
        rest = others;
    }
    None
}
