// What a term is, by its text.
ghost use Rattle.std.specs.Prelude.{◌≡◌, map};
ghost use Rattle.sdb_parse.specs.Signs.{may_name, same_word, seen, sign_in, sign_of};

/// What a token is to the grammar.
#[derive(Clone, Copy, Debug, PartialEq, Eq)]
pub enum Sign {
    Open,
    Close,
    Comma,
    Star,
    Equal,
    Unequal,
    Less,
    LessEqual,
    Greater,
    GreaterEqual,
    Or,
    And,
    Not,
    From,
    Where,
    Select,
    Like,
    Null,
    Is,
    Order,
    By,
    Asc,
    Desc,
    In,
    Between,
    Intersection,
    Limit,
    Every,
    /// The word `itemName`, which is a name unless `(` follows.
    ItemName,
    /// The word `count`, which is a name unless `(` follows.
    Count,
    /// Another word, or a name between backticks.
    Name,
    /// A text between `'` or between `"`.
    Quoted,
    Digits,
}

// A word or a symbol in lower case, and its sign.
#[derive(Clone, Copy, Debug)]
struct Row {
    word: &'static str,
    sign: Sign,
}

const WORDS: [Row; 30] = [
    Row {
        word: "(",
        sign: Sign::Open,
    },
    Row {
        word: ")",
        sign: Sign::Close,
    },
    Row {
        word: ",",
        sign: Sign::Comma,
    },
    Row {
        word: "*",
        sign: Sign::Star,
    },
    Row {
        word: "=",
        sign: Sign::Equal,
    },
    Row {
        word: "!=",
        sign: Sign::Unequal,
    },
    Row {
        word: "<",
        sign: Sign::Less,
    },
    Row {
        word: "<=",
        sign: Sign::LessEqual,
    },
    Row {
        word: ">",
        sign: Sign::Greater,
    },
    Row {
        word: ">=",
        sign: Sign::GreaterEqual,
    },
    Row {
        word: "or",
        sign: Sign::Or,
    },
    Row {
        word: "and",
        sign: Sign::And,
    },
    Row {
        word: "not",
        sign: Sign::Not,
    },
    Row {
        word: "from",
        sign: Sign::From,
    },
    Row {
        word: "where",
        sign: Sign::Where,
    },
    Row {
        word: "select",
        sign: Sign::Select,
    },
    Row {
        word: "like",
        sign: Sign::Like,
    },
    Row {
        word: "null",
        sign: Sign::Null,
    },
    Row {
        word: "is",
        sign: Sign::Is,
    },
    Row {
        word: "order",
        sign: Sign::Order,
    },
    Row {
        word: "by",
        sign: Sign::By,
    },
    Row {
        word: "asc",
        sign: Sign::Asc,
    },
    Row {
        word: "desc",
        sign: Sign::Desc,
    },
    Row {
        word: "in",
        sign: Sign::In,
    },
    Row {
        word: "between",
        sign: Sign::Between,
    },
    Row {
        word: "intersection",
        sign: Sign::Intersection,
    },
    Row {
        word: "limit",
        sign: Sign::Limit,
    },
    Row {
        word: "every",
        sign: Sign::Every,
    },
    Row {
        word: "itemname",
        sign: Sign::ItemName,
    },
    Row {
        word: "count",
        sign: Sign::Count,
    },
];

impl Sign {
    // The sign of a word or a symbol: words have one in any ASCII case, and other words are names.
    pub(crate) fn of(piece: &[u8]) -> Sign
        ensures { result ≡ sign_of piece.now }
    {
        sign_in(&WORDS, piece)
    }

    // Whether it is the sign of a word that may be a name.
    pub(crate) fn may_name(self) -> bool
        ensures { result ≡ may_name self }
    {
        self == Sign::Name || self == Sign::ItemName || self == Sign::Count
    }
}

fn same_word(word: &[u8], piece: &[u8]) -> bool
    ensures { result ≡ same_word word.now piece.now }
{
    word.eq_ignore_ascii_case(piece)
}

fn sign_in(rows: &[Row], piece: &[u8]) -> Sign
    ensures { result ≡ sign_in (map seen rows.now) piece.now }
{
    for row in rows {
        if same_word(row.word.as_bytes(), piece) {
            return row.sign;
        }
    }
    Sign::Name
}
