//! Where the first error of a text stands, and what is said of it.

use crate::rows::judge_all;
use std::rt::HostRuntime;
use std::test::Fail;

const ROWS: &str = r#"
values | {:a 1} =>
values | {:a 1.5} => at line 1, column 5: 1.5;
values | {:a 1,¶ :b 0x1f} => at line 2, column 5: 0x1f;
values | "é" 1/2 => at line 1, column 5: 1/2;
values | 99999999999999999999 => at line 1, column 1: 99999999999999999999;
values | 1.0000000000000000000000000000000000000000000 => at line 1, column 1: 1.00000000000000000000000000000000000000..;
values | "a\qb" => at line 1, column 3: \qb;
values | [1 )] => at line 1, column 4: );
values | [1 (2 => at line 1, column 6: the end; innermost open: ( at line 1, column 4; outermost open: [ at line 1, column 1;
values | {:a¶ "b => at line 2, column 4: the end; innermost open: " at line 2, column 2; outermost open: { at line 1, column 1;
values | [1 2 => at line 1, column 5: the end; innermost open: [ at line 1, column 1;
values | #{1 {:a}} => at line 1, column 8: }; innermost open: { at line 1, column 5; outermost open: #{ at line 1, column 1;
values | {:a 1 :a 2} => at line 1, column 11: }; innermost open: { at line 1, column 1;
values | #_ => at line 1, column 3: the end;
values | {"type": "ok"} => at line 1, column 8: :; this looks like JSON; jeprun reads EDN, as in {:type :ok, :process 0, :f :read, :value 1};
history | :a¶:end¶ 1.5¶:active [] => at line 3, column 2: 1.5;
history | {:a 1.5} => at line 1, column 5: 1.5;
values | :a¶:active 1.5 => at line 2, column 9: 1.5;
"#;

#[test]
fn first_errors_are_shown(rt: HostRuntime) -> Result<(), Fail> {
    judge_all(rt.alloc(), ROWS)
}

#[test]
fn a_byte_order_mark_is_named(rt: HostRuntime) -> Result<(), Fail> {
    judge_all(
        rt.alloc(),
        "values | \u{feff}{} => at line 1, column 1: \u{feff}; the input begins with a byte order mark, which EDN does not have;",
    )
}
