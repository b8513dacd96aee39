//! Pieces of texts that look random, with a `|` between. A Greek letter in a piece stands for one
//! of other pieces: `pieces_of` says of which.

/// Gaps, each of which ends an element.
static GAPS: &str = " | |,|\n|\r\n|\t|\u{b}|\u{c}\r|;]\n| ;\"é\n\n| #_ 1 |\n#_#_[:a\n] b ";

/// Elements that are read.
static ELEMENTS: &str = "nil|true|false|0|-0|+7N|0N|9223372036854775807|+9223372036854775807N|\
    -9223372036854775808|:a|:a/b|:nil|:1|:+1|a|a/1|nil/b|nilx|/|-|+a|-.1|a#_b|A.*+!-_?$%&=<>:#'z|\\newline|\
    \\u0041|\\uD7ff|\\,|\\;|\\u|\\é|\\😀|\"\"|\"é😀\"|\"a\n\\t\\r\\n\\\\\\\"\\b\\f;\"";

/// The same, mostly with others around them.
pub(crate) static SHAPES: &str =
    "Ω|Ω|Ω|()|(ΓΣ)|[ΓΣΓΣΓΣ]|{}|{ΓΣΓΣ}|{ΓΣΓΣΓΣΓΣ}|{ΓΣΓΣΓΣ}|#{ΓΣΓΣ}|#{ΓΣΓΣΓΣ}|\
    #aΓΣ|#a/b-cΓΣ|#_ΓΣΓΣ|[ΓΣΓ]|#_#aΓΣΓΣ";

/// Elements of which many are equal.
static TWINS: &str =
    "0|-0|+0N|1|nil|2036462921555450246|a|:a|\"a\"|\\a|\\u0061|()|[]|{}|#{}|(0 1)|[0 1]|[1 0]|#{0 1}|#{1 0}|\
    {0 1, a ()}|{a [], 0 1}|#a (0)|#a [0]|#b [0]|[#{[] a} nil]";

/// Sets and maps of them.
pub(crate) static SETS: &str =
    "#{ΘΓΘ}|#{ΘΓΘΓΘ}|#{ΘΓΘΓΘΓΘ}|#{#{ΘΓΘ}Γ#{ΘΓΘ}}|#{(ΘΓΘ)Γ[ΘΓΘ]}|{ΘΓΘΓΘΓΘ}|\
    {ΘΓΘΓΘΓΘΓΘΓΘ}|{ΘΓΘΓΘ}|{ΘΓΘΓΘΓΘΓΘ}|{{ΘΓ0Γ1ΓΘ}Γ0Γ{1ΓΘΓΘΓ0}Γ1}|[{Θ 1Γ#_ΘΘ 2}]";

/// Elements that are refused, most of them by themselves.
static SLIPS: &str =
    "01|-00|007N|1n|1NN|1/2|1.5|-1e3|0E|1M|01.|9223372036854775808|+9223372036854775808N|-9223372036854775809N|\
    18446744073709551616|09223372036854775808|-00000000000000000000001N|-99999999999999999999N|:|\
    ::a|:/|:a/|:a/b/c|a/|/a|//|'a|a@|.1|+|é|\\ud800|\\uDFFF|\\newlines|\\u00g1|\\ a|\\\n|\"\\q\"|\"\n\\u0041\"|\
    \"\\\né\"|# a|#1 1|##Inf|#nil 1|#a/ 1";

/// Elements that may be refused, with others around them.
pub(crate) static ODDITIES: &str = "(ΣΓΨ|[ΣΓΨΓΨ]|{ΨΓΣΓ}|{ΣΓΨΓΣΓΣ}|#{ΨΓΨ}|#aΓΨ|#ΠΠΓΣ|#_ΓΨ|ΨΨ|ΨΓΨ";

/// Strings, characters, keywords and other tokens that may be refused.
static ODD: &str =
    "Φ|Φ|\"ΛΛΛ\"|\"ΛΛΛΛ\n\"|\\Ξ|\\ΞΞ|\\uΞ|:Π|:ΠΠ|:ΠΠΠ|Π|ΠΠ|ΠΠΠ|ΠΠΠΠ|-922337203685477580Π|922337203685477580ΠΠ";

/// What tokens are made of.
static OF_TOKENS: &str = "0|1|9|7|8|+|-|.|e|E|M|N|/|:|#|_|'|a|Z|*|?|nil|true|@|~|é|\u{a0}";

/// What may stand behind the backslash of a character.
static OF_CHARACTERS: &str =
    "u|0041|d7FF|D800|dfff|e000|FFff|0|g|n|newline|return|space|tab|formfeed|backspace|é|😀| |,|\n|\"|\\|(";

/// What strings are made of.
static OF_STRINGS: &str = "a| |\n|;|é|😀|\\t|\\r|\\n|\\\\|\\\"|\\b|\\f|\\q|\\u0041|\\é";

/// What opens and closes, and others that bite.
static MARKS: &str =
    "(|)|[|]|{|}|#{|#_|#|#a |\"|\\|;|\n|\n| |,|1|a|:|/|N|.|-|\\a|\"b\"|nil|{:a 1\n:a 2}|#{1 +1}|{1}";

/// Rows of marks.
pub(crate) static ROWS: &str = "μμμ|μμμμμ|μμμμμμμ|μμμμμμμμμ|μμμμμμμμμμμ";

/// Elements inside many others.
pub(crate) static NESTS: &str = "[Δ]|(1\nΔ)|[Δ\n2]|#{Δ}|{1 Δ}|{Δ\n1}|#a Δ|#_Δ\n1|#a #_ 1 Δ";

/// Elements inside all of them.
static CORES: &str = "Ω|Ω|Φ|()|[1|#{}|{1 2}|{1}|#a 1|#_1 2|#_]|#1|# |#|\"\\q\"|;\n";

/// What may be spoiled by, and nothing.
pub(crate) static SPOILS: &str = "|μ|μ|Φ";

/// The pieces that a letter stands for, with at most so many others inside.
pub(crate) fn pieces_of(letter: char, depth: u32) -> Option<&'static str> {
    match letter {
        'Γ' => Some(GAPS),
        'Ω' => Some(ELEMENTS),
        'Σ' => Some(if depth > 2 { SHAPES } else { ELEMENTS }),
        'Θ' => Some(TWINS),
        'Φ' => Some(SLIPS),
        'Ψ' => Some(if depth > 2 { ODD } else { SLIPS }),
        'Π' => Some(OF_TOKENS),
        'Ξ' => Some(OF_CHARACTERS),
        'Λ' => Some(OF_STRINGS),
        'μ' => Some(MARKS),
        'Δ' => Some(if depth > 2 { NESTS } else { CORES }),
        _ => None,
    }
}
