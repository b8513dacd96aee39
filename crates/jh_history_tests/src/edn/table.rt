//! Texts, and what the format gives for each: the values, printed with a space between, or the error.

use crate::edn::rows::{Ask, ask_all};
use std::test::Fail;

/// White space, comments and discards.
#[test]
fn reads_gaps(rt: HostRuntime) -> Result<(), Fail> {
    let rows = "\
        \x1f\
        \x1e \t\n\x0b\x0c\r,\x1f\
        \x1e1 2\x1f1 2\
        \x1e1,2\x1f1 2\
        \x1e1\x0b2\x1f1 2\
        \x1e1\x0c2\x1f1 2\
        \x1e1\r2\x1f1 2\
        \x1e1\r\n2\x1f1 2\
        \x1e1\t2\x1f1 2\
        \x1e\u{a0}1\x1fline 1: bad token\
        \x1e,[,1,,2,],\x1f[1 2]\
        \x1e; x\x1f\
        \x1e;\x1f\
        \x1e; x\n1\x1f1\
        \x1e; x\r1\x1f\
        \x1e1;x\x1f1\
        \x1e1;x\n2\x1f1 2\
        \x1e[1 ; ]\n2]\x1f[1 2]\
        \x1e[1 ; ]\x1fline 1: unexpected end\
        \x1e[;]\n]\x1f[]\
        \x1e;;\n;\n:a\x1f:a\
        \x1e; ü\n1\x1f1\
        \x1e#_ 1\x1f\
        \x1e#_1 2\x1f2\
        \x1e#_ #_ 1 2 3\x1f3\
        \x1e#_#_1 2 3\x1f3\
        \x1e[1 #_ #_ 2 3 4]\x1f[1 4]\
        \x1e[1 #_2]\x1f[1]\
        \x1e#_[1 2]3\x1f3\
        \x1e#_\"a\"3\x1f3\
        \x1e#_;x\n1 2\x1f2\
        \x1e#_ #a 1 2\x1f2\
        \x1e#a #_ 1 2\x1f#a 2\
        \x1e#{#_1}\x1f#{}\
        \x1e{:a #_ 1 2}\x1f{:a 2}\
        \x1e{#_ :a}\x1f{}\
        \x1e{:a #_ 1}\x1fline 1: odd map\
        \x1e[#_]\x1fline 1: bad token\
        \x1e(#_ )\x1fline 1: bad token\
        \x1e#_\x1fline 1: unexpected end\
        \x1e#_ #_ 1\x1fline 1: unexpected end\
        \x1e[1 #_\x1fline 1: unexpected end\
        \x1e#_ {:a}\x1fline 1: odd map\
        \x1e#_ #{1 1} 2\x1fline 1: duplicate key\
        \x1e#_ 1.5 2\x1fline 1: float unsupported\
        \x1e#_\n\n007\x1fline 3: bad token\
        \x1e# _1\x1fline 1: bad token";
    ask_all(rt.alloc(), &Ask::Values, rows)
}

/// Numbers, symbols and keywords.
#[test]
fn reads_runs(rt: HostRuntime) -> Result<(), Fail> {
    let rows = "\
        0\x1f0\
        \x1e-0\x1f0\
        \x1e+0\x1f0\
        \x1e0N\x1f0\
        \x1e-0N\x1f0\
        \x1e42\x1f42\
        \x1e+7\x1f7\
        \x1e-7\x1f-7\
        \x1e7N\x1f7\
        \x1e9223372036854775807\x1f9223372036854775807\
        \x1e9223372036854775808\x1fline 1: integer out of range\
        \x1e9223372036854775808N\x1fline 1: integer out of range\
        \x1e-9223372036854775808\x1f-9223372036854775808\
        \x1e-9223372036854775809\x1fline 1: integer out of range\
        \x1e+9223372036854775807\x1f9223372036854775807\
        \x1e99999999999999999999999999\x1fline 1: integer out of range\
        \x1e00\x1fline 1: bad token\
        \x1e01\x1fline 1: bad token\
        \x1e-01\x1fline 1: bad token\
        \x1e+00N\x1fline 1: bad token\
        \x1e1M\x1fline 1: float unsupported\
        \x1e1.\x1fline 1: float unsupported\
        \x1e1.5\x1fline 1: float unsupported\
        \x1e-1.5e3\x1fline 1: float unsupported\
        \x1e1e5\x1fline 1: float unsupported\
        \x1e1E5\x1fline 1: float unsupported\
        \x1e01.5\x1fline 1: float unsupported\
        \x1e99999999999999999999M\x1fline 1: float unsupported\
        \x1e1n\x1fline 1: bad token\
        \x1e1NN\x1fline 1: bad token\
        \x1e1/2\x1fline 1: bad token\
        \x1e1a\x1fline 1: bad token\
        \x1e-1a\x1fline 1: bad token\
        \x1e0x1f\x1fline 1: bad token\
        \x1e1#{2}\x1fline 1: bad token\
        \x1e+\x1f+\
        \x1e-\x1f-\
        \x1e.\x1f.\
        \x1e..\x1f..\
        \x1e...\x1f...\
        \x1e+a\x1f+a\
        \x1e-a\x1f-a\
        \x1e.a\x1f.a\
        \x1e-.1\x1f-.1\
        \x1e--1\x1f--1\
        \x1e+-1\x1f+-1\
        \x1e.1\x1fline 1: bad token\
        \x1e.1a\x1fline 1: bad token\
        \x1e/\x1f/\
        \x1e//\x1fline 1: bad token\
        \x1ea/b\x1fa/b\
        \x1ea/b/c\x1fline 1: bad token\
        \x1ea/\x1fline 1: bad token\
        \x1e/a\x1fline 1: bad token\
        \x1ea/1\x1fa/1\
        \x1ea1\x1fa1\
        \x1eA.*+!-_?$%&=<>:#'z\x1fA.*+!-_?$%&=<>:#'z\
        \x1e*\x1f*\
        \x1ea@\x1fline 1: bad token\
        \x1ea~\x1fline 1: bad token\
        \x1e'a\x1fline 1: bad token\
        \x1e`a\x1fline 1: bad token\
        \x1e^a\x1fline 1: bad token\
        \x1e@a\x1fline 1: bad token\
        \x1eü\x1fline 1: bad token\
        \x1eaü\x1fline 1: bad token\
        \x1enil\x1fnil\
        \x1etrue\x1ftrue\
        \x1efalse\x1ffalse\
        \x1enilx\x1fnilx\
        \x1enil/a\x1fnil/a\
        \x1eTrue\x1fTrue\
        \x1efoo#{1 2}\x1ffoo# {1 2}\
        \x1ea#_b\x1fa#_b\
        \x1e:a\x1f:a\
        \x1e:a/b\x1f:a/b\
        \x1e:a/b/c\x1fline 1: bad token\
        \x1e:a/\x1fline 1: bad token\
        \x1e:/\x1fline 1: bad token\
        \x1e:/a\x1fline 1: bad token\
        \x1e:\x1fline 1: bad token\
        \x1e::a\x1fline 1: bad token\
        \x1e:#a\x1fline 1: bad token\
        \x1e:'a\x1fline 1: bad token\
        \x1e:1\x1f:1\
        \x1e:-1\x1f:-1\
        \x1e:nil\x1f:nil\
        \x1e:a:b\x1f:a:b\
        \x1e:ü\x1fline 1: bad token\
        \x1e: a\x1fline 1: bad token";
    ask_all(rt.alloc(), &Ask::Values, rows)
}

/// Strings and characters.
#[test]
fn reads_quoted(rt: HostRuntime) -> Result<(), Fail> {
    let rows = "\
        \"123456789012345\" \"1234567890123456\"\x1f\"123456789012345\" \"1234567890123456\"\
        \x1e\"1234567890123é\" \"12345678901234é\"\x1f\"1234567890123é\" \"12345678901234é\"\
        \x1e\"1234567890123\\t5\" \"1234567890123\\té\"\x1f\"1234567890123\\t5\" \"1234567890123\\té\"\
        \x1e\"\"\x1f\"\"\
        \x1e\"a b\"\x1f\"a b\"\
        \x1e\"\\t\\r\\n\\\\\\\"\\b\\f\"\x1f\"\\t\\r\\n\\\\\\\"\\b\\f\"\
        \x1e\"\t\r\n\"\x1f\"\\t\\r\\n\"\
        \x1e\"\x0b\x7f/;\"\x1f\"\x0b\x7f/;\"\
        \x1e\"ü€😀\"\x1f\"ü€😀\"\
        \x1e\"a\nb\" 1\x1f\"a\\nb\" 1\
        \x1e\"a\"1\x1f\"a\" 1\
        \x1e1\"a\"\x1f1 \"a\"\
        \x1e\"a\"\"b\"\x1f\"a\" \"b\"\
        \x1e\"a\x1fline 1: unexpected end\
        \x1e\"a\nb\x1fline 2: unexpected end\
        \x1e\"a\\\x1fline 1: unexpected end\
        \x1e\"\\\"\x1fline 1: unexpected end\
        \x1e\"\\q\"\x1fline 1: bad escape\
        \x1e\"\\u0041\"\x1fline 1: bad escape\
        \x1e\"\\/\"\x1fline 1: bad escape\
        \x1e\"\\\n\"\x1fline 1: bad escape\
        \x1e\"\n\\ü\"\x1fline 2: bad escape\
        \x1e\\a\x1f\\a\
        \x1e\\u\x1f\\u\
        \x1e\\n\x1f\\n\
        \x1e\\newline\x1f\\newline\
        \x1e\\return\x1f\\return\
        \x1e\\space\x1f\\space\
        \x1e\\tab\x1f\\tab\
        \x1e\\formfeed\x1f\\formfeed\
        \x1e\\backspace\x1f\\backspace\
        \x1e\\Newline\x1fline 1: bad token\
        \x1e\\newlines\x1fline 1: bad token\
        \x1e\\spac\x1fline 1: bad token\
        \x1e\\,\x1f\\,\
        \x1e\\,a\x1fline 1: bad token\
        \x1e\\\"\x1f\\\"\
        \x1e\\\\\x1f\\\\\
        \x1e\\;\x1f\\;\
        \x1e\\(\x1f\\(\
        \x1e\\]\x1f\\]\
        \x1e\\{\x1f\\{\
        \x1e\\#\x1f\\#\
        \x1e\\#a\x1fline 1: bad token\
        \x1e\\1\x1f\\1\
        \x1e\\12\x1fline 1: bad token\
        \x1e\\ü\x1f\\ü\
        \x1e\\€\x1f\\€\
        \x1e\\😀\x1f\\😀\
        \x1e\\üx\x1fline 1: bad token\
        \x1e\\u0041\x1f\\A\
        \x1e\\u00e9\x1f\\é\
        \x1e\\u00E9\x1f\\é\
        \x1e\\u0020\x1f\\space\
        \x1e\\u000a\x1f\\newline\
        \x1e\\u000b\x1f\\u000b\
        \x1e\\u0000\x1f\\u0000\
        \x1e\\u001f\x1f\\u001f\
        \x1e\\u007F\x1f\\u007f\
        \x1e\\u007e\x1f\\~\
        \x1e\\u0080\x1f\\\u{80}\
        \x1e\\u00a0\x1f\\\u{a0}\
        \x1e\\ud7ff\x1f\\\u{d7ff}\
        \x1e\\ud800\x1fline 1: bad token\
        \x1e\\udfff\x1fline 1: bad token\
        \x1e\\ue000\x1f\\\u{e000}\
        \x1e\\uffff\x1f\\\u{ffff}\
        \x1e\\u041\x1fline 1: bad token\
        \x1e\\u00041\x1fline 1: bad token\
        \x1e\\u004g\x1fline 1: bad token\
        \x1e\\U0041\x1fline 1: bad token\
        \x1e\\\x0b\x1fline 1: bad token\
        \x1e\\\x7f\x1f\\u007f\
        \x1e\\\x01\x1f\\u0001\
        \x1e\\ a\x1fline 1: bad token\
        \x1e\\\ta\x1fline 1: bad token\
        \x1e\\\n\x1fline 1: bad token\
        \x1e\\\x1fline 1: unexpected end\
        \x1e[\\\x1fline 1: unexpected end\
        \x1e[\\newline \\u0041 \\,]\x1f[\\newline \\A \\,]\
        \x1e[\\a\\b]\x1f[\\a \\b]\
        \x1e\\a[1]\x1f\\a [1]\
        \x1e\\a\"b\"\x1f\\a \"b\"\
        \x1e\\(a)\x1fline 1: bad token";
    ask_all(rt.alloc(), &Ask::Values, rows)
}

/// Collections and tags.
#[test]
fn reads_collections(rt: HostRuntime) -> Result<(), Fail> {
    let rows = "\
        ()\x1f()\
        \x1e(1 2)\x1f(1 2)\
        \x1e[]\x1f[]\
        \x1e[1[2]3]\x1f[1 [2] 3]\
        \x1e{}\x1f{}\
        \x1e{:a 1}\x1f{:a 1}\
        \x1e{:b 2 :a 1}\x1f{:b 2, :a 1}\
        \x1e#{}\x1f#{}\
        \x1e#{3 1}\x1f#{3 1}\
        \x1e#{1}#{1}\x1f#{1} #{1}\
        \x1e[()#{}{}\"\":a]\x1f[() #{} {} \"\" :a]\
        \x1e{[1](2)}\x1f{[1] (2)}\
        \x1e{nil nil}\x1f{nil nil}\
        \x1e[1\x1fline 1: unexpected end\
        \x1e(\x1fline 1: unexpected end\
        \x1e#{1\x1fline 1: unexpected end\
        \x1e{:a\x1fline 1: unexpected end\
        \x1e]\x1fline 1: bad token\
        \x1e)\x1fline 1: bad token\
        \x1e}\x1fline 1: bad token\
        \x1e[1)\x1fline 1: bad token\
        \x1e(1]\x1fline 1: bad token\
        \x1e{1]\x1fline 1: bad token\
        \x1e#{1]\x1fline 1: bad token\
        \x1e[1\n}\x1fline 2: bad token\
        \x1e{:a}\x1fline 1: odd map\
        \x1e{1 2 3}\x1fline 1: odd map\
        \x1e{1 2\n1}\x1fline 2: odd map\
        \x1e{1 2 1}\x1fline 1: odd map\
        \x1e{1 2 1 3}\x1fline 1: duplicate key\
        \x1e{1 2,\n1 3\n}\x1fline 3: duplicate key\
        \x1e{1 [1.5] 1 2}\x1fline 1: float unsupported\
        \x1e{0 1 -0 2}\x1fline 1: duplicate key\
        \x1e{1 1 +1N 2}\x1fline 1: duplicate key\
        \x1e{a 1 :a 2 \"a\" 3 \\a 4}\x1f{a 1, :a 2, \"a\" 3, \\a 4}\
        \x1e{[1] 1 (1) 2}\x1fline 1: duplicate key\
        \x1e{{1 2, 3 4} 1 {3 4, 1 2} 2}\x1fline 1: duplicate key\
        \x1e{#{1 2} 1 #{2 1} 2}\x1fline 1: duplicate key\
        \x1e{#a 1 1 #b 1 2}\x1f{#a 1 1, #b 1 2}\
        \x1e{#a (1) 1 #a [1] 2}\x1fline 1: duplicate key\
        \x1e{[1 2] 1 [2 1] 2}\x1f{[1 2] 1, [2 1] 2}\
        \x1e{[] 1 #{} 2 {} 3}\x1f{[] 1, #{} 2, {} 3}\
        \x1e#{1 1}\x1fline 1: duplicate key\
        \x1e#{-0 0}\x1fline 1: duplicate key\
        \x1e#{1 +1}\x1fline 1: duplicate key\
        \x1e#{(1) [1]}\x1fline 1: duplicate key\
        \x1e#{() []}\x1fline 1: duplicate key\
        \x1e#{\\a \"a\"}\x1f#{\\a \"a\"}\
        \x1e#{true false nil}\x1f#{true false nil}\
        \x1e#{nil nil}\x1fline 1: duplicate key\
        \x1e#{\\u0041 \\A}\x1fline 1: duplicate key\
        \x1e#{1 #_1 2}\x1f#{1 2}\
        \x1e#{nil 2036462921555450246}\x1f#{nil 2036462921555450246}\
        \x1e#{[nil] [2036462921555450246]}\x1f#{[nil] [2036462921555450246]}\
        \x1e{true 1 1018231460777725124 2}\x1f{true 1, 1018231460777725124 2}\
        \x1e#{\\a -1018231460777725026 \\a}\x1fline 1: duplicate key\
        \x1e#inst \"x\"\x1f#inst \"x\"\
        \x1e#inst\"x\"\x1f#inst \"x\"\
        \x1e#a 1\x1f#a 1\
        \x1e#a[1]\x1f#a [1]\
        \x1e#a #b 1\x1f#a #b 1\
        \x1e#a#b 1\x1f#a#b 1\
        \x1e#a/b 1\x1f#a/b 1\
        \x1e#jepsen.history.Op{:index 0}\x1f#jepsen.history.Op {:index 0}\
        \x1e[#a 1 2]\x1f[#a 1 2]\
        \x1e{#a :k 1}\x1f{#a :k 1}\
        \x1e#a ; x\n1\x1f#a 1\
        \x1e#nila 1\x1f#nila 1\
        \x1e#nil 1\x1fline 1: bad token\
        \x1e#true 1\x1fline 1: bad token\
        \x1e#a\x1fline 1: unexpected end\
        \x1e#a \x1fline 1: unexpected end\
        \x1e#a ;\x1fline 1: unexpected end\
        \x1e[#a]\x1fline 1: bad token\
        \x1e{:k #a}\x1fline 1: bad token\
        \x1e#a/ 1\x1fline 1: bad token\
        \x1e#a/b/c 1\x1fline 1: bad token\
        \x1e#a@ 1\x1fline 1: bad token\
        \x1e#\x1fline 1: bad token\
        \x1e# a\x1fline 1: bad token\
        \x1e#1\x1fline 1: bad token\
        \x1e#.a 1\x1fline 1: bad token\
        \x1e#\"x\"\x1fline 1: bad token\
        \x1e#[1]\x1fline 1: bad token\
        \x1e#(1)\x1fline 1: bad token\
        \x1e#:a{}\x1fline 1: bad token\
        \x1e##Inf\x1fline 1: bad token\
        \x1e#'a\x1fline 1: bad token\
        \x1e#\\a\x1fline 1: bad token\
        \x1e# {1}\x1fline 1: bad token\
        \x1e#object[x 0x1f \"y\"]\x1fline 1: bad token\
        \x1e[1\n2 #object[x\n0x1f \"y\"]]\x1fline 3: bad token\
        \x1e1 2 ]\x1fline 1: bad token\
        \x1e1\n\n\"a\x1fline 3: unexpected end";
    ask_all(rt.alloc(), &Ask::Values, rows)
}
