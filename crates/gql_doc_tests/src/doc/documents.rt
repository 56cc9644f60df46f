//! Documents, and texts that are none with what is in the way, by hand.

use crate::shared::titled;
use gql_doc::{ParseRefusal, parse};
use gql_lex::LexRefusal;
use gql_tree::Spot;
use std::alloc::Global;
use std::process::Abort;
use std::test::Fail;

/// A refusal's name, and its place where it has one.
pub(crate) fn refusal_shown(alloc: Global, refusal: ParseRefusal) -> Result<String, Fail> {
    match refusal.spot() {
        Some(spot) => titled(alloc, refusal.name(), "", spot),
        None => Ok(format!(in alloc; "{}", refusal.name())?),
    }
}

/// `ok` for a document, or its refusal.
pub(crate) fn shown(alloc: Global, text: &str) -> Result<String, Fail> {
    match parse(alloc, text) {
        Ok(_) => Ok(format!(in alloc; "ok")?),
        Err(refusal) => refusal_shown(alloc, refusal),
    }
}

/// Each text is shown as it stands beside it.
fn each_shown(rt: &impl Abort, alloc: Global, table: &[(&str, &str)]) -> Result<(), Fail> {
    for &(text, want) in table {
        let got = shown(alloc, text)?;
        assert_eq!(rt; got.as_str(), want, "{text}");
    }
    Ok(())
}

#[test]
fn documents(rt: HostRuntime) -> Result<(), Fail> {
    let alloc = rt.alloc();
    let table = [
        "{a}",
        "{a b,c}",
        "query{a}",
        "query Q{a}",
        "mutation{a}",
        "mutation M @d{a}",
        "subscription{a}",
        "subscription S($a:I){a}",
        "query Q($a:I){b(c:$a)}",
        "query($a:[T!]!,$b:[[I]]!$c:[S!],$d:[[U!]!]){a}",
        "query($a:I=1$b:S=\"x\"@d(e:true)$c:[B]=[true,false,null,E]$d:O={a:1,b:[{}]}){a}",
        "query($a:I@d@e(f:1),$b:I=-1@f){a}",
        "query Q($query:query=query)@d(a:$query)@e{a}",
        "query on{a}",
        "{a:b}",
        "{a:b(c:1)@d@e(f:$g){h}}",
        "{a(b:1,c:-0 d:\"\"e:\"x\\n\\u00e9\" f:\"\"\"b\"\"\"g:true h:false i:null j:E k:$v)}",
        "{a(b:[]c:{}d:[1\"a\"[E,{a:$b}]]e:{f:{g:[]},h:$i})}",
        "{...F}",
        "{...F@a@b(c:$d) e}",
        "{...on T{a}}",
        "{...{a}}",
        "{...@d{a}}",
        "{...on T@d(e:1){...F a ...{b}}}",
        "{...on on{a}}",
        "fragment F on T{a}",
        "fragment F on T@d(e:1){...F}",
        "fragment fragment on on{fragment}",
        "fragment query on T{a}query query{query}",
        "{a}{b}fragment F on T{c}mutation{d}subscription S{e}",
        "{query on:true fragment mutation subscription true:on false null}",
        "{on{on}}",
        "{a(on:on,true:1 null:{query:fragment})}",
        "\u{feff}{\u{feff}a}",
        ",,{,a,,b,},",
        "#c\n{a#}\n}#",
        " \t\r\n{\ra\n}\r\n",
        "{a(b:\"\"\"\n c\n\n  \\\"\"\" \u{e9}\n\"\"\")}",
    ];
    for &text in &table {
        let got = shown(alloc, text)?;
        assert_eq!(rt; got.as_str(), "ok", "{text}");
    }
    Ok(())
}

#[test]
fn selections_refused(rt: HostRuntime) -> Result<(), Fail> {
    each_shown(
        &rt,
        rt.alloc(),
        &[
            ("{", "Unexpected 1:2"),
            ("{}", "Unexpected 1:2"),
            ("{{a}}", "Unexpected 1:2"),
            ("{1}", "Unexpected 1:2"),
            ("{@a}", "Unexpected 1:2"),
            ("{a", "Unexpected 1:3"),
            ("{a|b}", "Unexpected 1:3"),
            ("{a{}}", "Unexpected 1:4"),
            ("{a:}", "Unexpected 1:4"),
            ("{a:1}", "Unexpected 1:4"),
            ("{a:b:c}", "Unexpected 1:5"),
        ],
    )
}

#[test]
fn arguments_refused(rt: HostRuntime) -> Result<(), Fail> {
    each_shown(
        &rt,
        rt.alloc(),
        &[
            ("{a(", "Unexpected 1:4"),
            ("{a()}", "Unexpected 1:4"),
            ("{a(1:b)}", "Unexpected 1:4"),
            ("{a(b)}", "Unexpected 1:5"),
            ("{a(b 1)}", "Unexpected 1:6"),
            ("{a(b:)}", "Unexpected 1:6"),
            ("{a(b:!)}", "Unexpected 1:6"),
            ("{a(b:1", "Unexpected 1:7"),
            ("{a(b:1}", "Unexpected 1:7"),
            ("{a(b:1)(c:2)}", "Unexpected 1:8"),
            ("{a(b:$)}", "Unexpected 1:7"),
            ("{a(b:$1)}", "Unexpected 1:7"),
            ("{a(b:[", "Unexpected 1:7"),
            ("{a(b:[1)}", "Unexpected 1:8"),
            ("{a(b:{", "Unexpected 1:7"),
            ("{a(b:{1:2})}", "Unexpected 1:7"),
            ("{a(b:{c})}", "Unexpected 1:8"),
            ("{a(b:{c:})}", "Unexpected 1:9"),
        ],
    )
}

#[test]
fn directives_and_spreads_refused(rt: HostRuntime) -> Result<(), Fail> {
    each_shown(
        &rt,
        rt.alloc(),
        &[
            ("{a@}", "Unexpected 1:4"),
            ("{a@b()}", "Unexpected 1:6"),
            ("{a@b@", "Unexpected 1:6"),
            ("{a@b(c:1", "Unexpected 1:9"),
            ("{...", "Unexpected 1:5"),
            ("{...}", "Unexpected 1:5"),
            ("{...1}", "Unexpected 1:5"),
            ("{...F{a}}", "Unexpected 1:6"),
            ("{...F(a:1)}", "Unexpected 1:6"),
            ("{...on}", "Unexpected 1:7"),
            ("{...on{a}}", "Unexpected 1:7"),
            ("{...on T}", "Unexpected 1:9"),
            ("{...on T{}}", "Unexpected 1:10"),
            ("{...@d}", "Unexpected 1:7"),
            ("{\n a\n  }\n}", "Unexpected 4:1"),
            ("{\r\n a(\r)}", "Unexpected 3:1"),
        ],
    )
}

#[test]
fn definitions_refused(rt: HostRuntime) -> Result<(), Fail> {
    each_shown(
        &rt,
        rt.alloc(),
        &[
            ("", "Unexpected 1:1"),
            (" ,\t", "Unexpected 1:4"),
            ("#c", "Unexpected 1:3"),
            ("#c\n", "Unexpected 2:1"),
            ("}", "Unexpected 1:1"),
            ("type T{a:B}", "Unexpected 1:1"),
            ("\"\"\"d\"\"\"{a}", "Unexpected 1:1"),
            ("{a}}", "Unexpected 1:4"),
            ("{a} b", "Unexpected 1:5"),
            ("{a}fragment", "Unexpected 1:12"),
            ("query", "Unexpected 1:6"),
            ("query Q", "Unexpected 1:8"),
            ("query 1{a}", "Unexpected 1:7"),
            ("query Q R{a}", "Unexpected 1:9"),
            ("query{}", "Unexpected 1:7"),
            ("query@d", "Unexpected 1:8"),
            ("query Q(){a}", "Unexpected 1:9"),
            ("query(a:T){a}", "Unexpected 1:7"),
            ("query($", "Unexpected 1:8"),
        ],
    )
}

#[test]
fn variables_refused(rt: HostRuntime) -> Result<(), Fail> {
    each_shown(
        &rt,
        rt.alloc(),
        &[
            ("query($a){b}", "Unexpected 1:9"),
            ("query($a:){b}", "Unexpected 1:10"),
            ("query($a:$T){b}", "Unexpected 1:10"),
            ("query($a:[]){b}", "Unexpected 1:11"),
            ("query($a:[T){b}", "Unexpected 1:12"),
            ("query($a:T", "Unexpected 1:11"),
            ("query($a:T!!){b}", "Unexpected 1:12"),
            ("query($a:T=){b}", "Unexpected 1:12"),
            ("query($a:T=$c){b}", "Unexpected 1:12"),
            ("query($a:T=[1 $c]){b}", "Unexpected 1:15"),
            ("query($a:T={c:$d}){b}", "Unexpected 1:15"),
            ("query($a:T@d(e:$c)){b}", "Unexpected 1:16"),
            ("query($a:T $b){b}", "Unexpected 1:14"),
            ("query($a:T)", "Unexpected 1:12"),
        ],
    )
}

#[test]
fn fragments_refused(rt: HostRuntime) -> Result<(), Fail> {
    each_shown(
        &rt,
        rt.alloc(),
        &[
            ("fragment", "Unexpected 1:9"),
            ("fragment{a}", "Unexpected 1:9"),
            ("fragment F", "Unexpected 1:11"),
            ("fragment on on T{a}", "Unexpected 1:10"),
            ("fragment F T{a}", "Unexpected 1:12"),
            ("fragment F on", "Unexpected 1:14"),
            ("fragment F on{a}", "Unexpected 1:14"),
            ("fragment F on T", "Unexpected 1:16"),
            ("fragment F on T{}", "Unexpected 1:17"),
            ("fragment F on T@d", "Unexpected 1:18"),
        ],
    )
}

#[test]
fn no_tokens(rt: HostRuntime) -> Result<(), Fail> {
    each_shown(
        &rt,
        rt.alloc(),
        &[
            ("%}", "BadCharacter 1:1"),
            ("{a%}", "BadCharacter 1:3"),
            ("{a\u{e9}}", "BadCharacter 1:3"),
            ("{..F}", "BadCharacter 1:2"),
            ("{a}%", "BadCharacter 1:4"),
            ("}%", "Unexpected 1:1"),
            ("{}%", "Unexpected 1:2"),
            ("{a(b:\"\\q\")}", "BadEscape 1:7"),
            ("{a(b:\"c)}", "OpenString 1:6"),
            ("{a(b:\"c\nd\")}", "OpenString 1:6"),
            ("{a(b:\"\"\"c)}", "OpenString 1:6"),
            ("{a(b:\"c\" \"", "OpenString 1:10"),
            ("{a(b:01)}", "BadNumber 1:6"),
            ("{a(b:[1 2.", "BadNumber 1:9"),
            ("{a(b:1.5)}", "FloatToken 1:6"),
            ("{a(b:1.5%}", "FloatToken 1:6"),
        ],
    )
}

#[test]
fn messages(rt: HostRuntime) -> Result<(), Fail> {
    let spot = Spot { line: 2, column: 7 };
    let table = [
        (ParseRefusal::TooLong, "the text is too long"),
        (
            ParseRefusal::Lex(LexRefusal::OpenString(spot)),
            "the string at 2:7 doesn't end",
        ),
        (
            ParseRefusal::Unexpected { spot },
            "no document goes on with what stands at 2:7",
        ),
        (
            ParseRefusal::TooDeep { spot },
            "the brace or bracket at 2:7 is opened inside 128 others",
        ),
        (ParseRefusal::NoMemory, "no memory left"),
    ];
    for &(refusal, want) in &table {
        let got = format!(in rt.alloc(); "{refusal}")?;
        assert_eq!(rt; got.as_str(), want);
    }
    Ok(())
}
