ghost use Rattle.std.specs.Prelude.{◌≡◌, map};
ghost use Rattle.script_lang.specs.Forms.{form};
ghost use Rattle.script_lang.specs.WordPlaces.{place_kind, place_name, place_names};

use crate::limits::{
    ADVANCE, ANY, BLOCK, CONTENT, FETCHERS, INJECTION, KEY, LAST_PART, LOSS, NODE_NAME, NUMBERS,
    OBJECT_NAME, SEGMENT, TRIES, WORKERS,
};
use crate::verb::Verb;

/// A kind of word, with the range of a number, or of how many octets a name's value, hexadecimal text or a content has.
#[derive(Clone, Copy)]
pub enum WordKind {
    Label,
    /// A label, or `*`.
    Publisher,
    Number { least: u64, most: u64 },
    Uri { least: u64, most: u64 },
    Hex { most: u64 },
    Content { least: u64, most: u64 },
}

/// The place of a word in a form of line.
#[derive(Clone, Copy)]
pub struct Place {
    /// What the word is called, in capitals.
    pub name: &'static str,
    pub kind: WordKind,
}

const LABEL: Place = Place {
    name: "LABEL",
    kind: WordKind::Label,
};

const M: Place = Place {
    name: "M",
    kind: WordKind::Label,
};

const CLIENT: Place = Place {
    name: "CLIENT",
    kind: WordKind::Label,
};

const L: Place = Place {
    name: "L",
    kind: WordKind::Label,
};

const Q: Place = Place {
    name: "Q",
    kind: WordKind::Label,
};

const PUBLISHER_LABEL: Place = Place {
    name: "P",
    kind: WordKind::Label,
};

const PUBLISHER: Place = Place {
    name: "P",
    kind: WordKind::Publisher,
};

const NODE: Place = Place {
    name: "URI",
    kind: WordKind::Uri {
        least: 1,
        most: NODE_NAME,
    },
};

const OBJECT: Place = Place {
    name: "URI",
    kind: WordKind::Uri {
        least: 1,
        most: OBJECT_NAME,
    },
};

const PREFIX: Place = Place {
    name: "URI",
    kind: WordKind::Uri {
        least: 0,
        most: OBJECT_NAME,
    },
};

const KEY_DIGITS: Place = Place {
    name: "HEX",
    kind: WordKind::Hex { most: KEY },
};

const PACKET_DIGITS: Place = Place {
    name: "HEX",
    kind: WordKind::Hex { most: INJECTION },
};

const PUBLICATION: Place = Place {
    name: "CONTENT",
    kind: WordKind::Content {
        least: 0,
        most: CONTENT,
    },
};

const BLOCK_CONTENT: Place = Place {
    name: "CONTENT",
    kind: WordKind::Content {
        least: 1,
        most: BLOCK,
    },
};

const SIZE: Place = Place {
    name: "SIZE",
    kind: WordKind::Number {
        least: 1,
        most: SEGMENT as u64,
    },
};

const S: Place = Place {
    name: "S",
    kind: WordKind::Number {
        least: 1,
        most: NUMBERS as u64,
    },
};

const X: Place = Place {
    name: "X",
    kind: WordKind::Number {
        least: 0,
        most: LAST_PART as u64,
    },
};

const K: Place = Place {
    name: "K",
    kind: WordKind::Number {
        least: 1,
        most: u32::MAX as u64,
    },
};

const W: Place = Place {
    name: "W",
    kind: WordKind::Number {
        least: 1,
        most: u32::MAX as u64,
    },
};

const PROCESS: Place = Place {
    name: "PROCESS",
    kind: WordKind::Number {
        least: 1,
        most: u32::MAX as u64,
    },
};

const F: Place = Place {
    name: "F",
    kind: WordKind::Number {
        least: 1,
        most: FETCHERS as u64,
    },
};

const WORKER_COUNT: Place = Place {
    name: "WORKERS",
    kind: WordKind::Number {
        least: 1,
        most: WORKERS as u64,
    },
};

const TRY_COUNT: Place = Place {
    name: "TRIES",
    kind: WordKind::Number {
        least: 1,
        most: TRIES as u64,
    },
};

const LOSS_RATE: Place = Place {
    name: "LOSS",
    kind: WordKind::Number {
        least: 0,
        most: LOSS as u64,
    },
};

const MS: Place = Place {
    name: "MS",
    kind: WordKind::Number {
        least: 0,
        most: ADVANCE,
    },
};

const FIRST: Place = Place {
    name: "FIRST",
    kind: WordKind::Number {
        least: 0,
        most: ANY,
    },
};

const LAST: Place = Place {
    name: "LAST",
    kind: WordKind::Number {
        least: 0,
        most: ANY,
    },
};

const INDEX: Place = Place {
    name: "INDEX",
    kind: WordKind::Number {
        least: 0,
        most: ANY,
    },
};

impl Verb {
    /// The word itself.
    pub fn word(self) -> &'static str
        ensures { result.now ≡ (form self).word }
    {
        match self {
            Verb::Group => "group",
            Verb::Member => "member",
            Verb::Client => "client",
            Verb::Mirror => "mirror",
            Verb::Publish => "publish",
            Verb::Withdraw => "withdraw",
            Verb::Deliver => "deliver",
            Verb::Sync => "sync",
            Verb::Advance => "advance",
            Verb::Fire => "fire",
            Verb::Restart => "restart",
            Verb::Vector => "vector",
            Verb::Catalogue => "catalogue",
            Verb::Claim => "claim",
            Verb::Lose => "lose",
            Verb::Answer => "answer",
            Verb::Fetch => "fetch",
            Verb::Settle => "settle",
            Verb::Dump => "dump",
            Verb::Hear => "hear",
            Verb::Order => "order",
            Verb::Ask => "ask",
            Verb::Feed => "feed",
            Verb::Insert => "insert",
            Verb::Block => "block",
            Verb::Status => "status",
            Verb::Delete => "delete",
            Verb::Watch => "watch",
            Verb::Told => "told",
            Verb::Mdeliver => "mdeliver",
            Verb::Mfetch => "mfetch",
            Verb::Mcatalogue => "mcatalogue",
            Verb::Summary => "summary",
            Verb::Traffic => "traffic",
        }
    }

    /// The places of the words after the verb, in order.
    pub fn places(self) -> &'static [Place]
        ensures kinds { map place_kind result.now ≡ (form self).kinds }
        ensures names { map place_name result.now ≡ place_names self }
    {
        match self {
            Verb::Group => &[NODE],
            Verb::Member | Verb::Client => &[LABEL, NODE, KEY_DIGITS],
            Verb::Mirror => &[LABEL, PUBLISHER, PREFIX],
            Verb::Publish => &[M, OBJECT, SIZE, PUBLICATION],
            Verb::Withdraw => &[M, S],
            Verb::Deliver => &[K, M],
            Verb::Sync => &[K],
            Verb::Advance => &[MS],
            Verb::Fire | Verb::Restart | Verb::Vector | Verb::Catalogue => &[M],
            Verb::Claim | Verb::Lose => &[M, F],
            Verb::Answer => &[M, F, Q],
            Verb::Fetch => &[M, WORKER_COUNT, TRY_COUNT, LOSS_RATE],
            Verb::Settle => &[WORKER_COUNT],
            Verb::Dump => &[M, PUBLISHER_LABEL, S, X],
            Verb::Hear | Verb::Order | Verb::Ask => &[M, PACKET_DIGITS],
            Verb::Feed => &[M, F, PACKET_DIGITS],
            Verb::Insert => &[M, CLIENT, OBJECT, FIRST, LAST],
            Verb::Block => &[M, PROCESS, INDEX, BLOCK_CONTENT],
            Verb::Status => &[M, CLIENT, PROCESS],
            Verb::Delete => &[M, CLIENT, OBJECT],
            Verb::Watch => &[M, PUBLISHER, PREFIX],
            Verb::Told => &[M, W],
            Verb::Mdeliver => &[K, L],
            Verb::Mfetch => &[L, WORKER_COUNT, TRY_COUNT, LOSS_RATE],
            Verb::Mcatalogue => &[L],
            Verb::Summary | Verb::Traffic => &[],
        }
    }
}
