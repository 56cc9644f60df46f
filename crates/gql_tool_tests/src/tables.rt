//! Which tables are read, and what they say.

use crate::running::{NO_FAULT, NOT_BUILT, SCHEMA, files, joined, no_input, run};
use gql_io::MemoryShelf;
use std::alloc::Global;
use std::test::Fail;

/// The example's tables before the id of the hero, and behind it.
const EXAMPLE_BEFORE: &str = "{\"Query\":[{\"@id\":\"q\",\"hero\":{\"ref\":\"";

const EXAMPLE_BEHIND: &str = "\"},
  \"crew\":[{\"ref\":\"1\"},{\"ref\":\"2\"},{\"ref\":\"3\"}],
  \"cast\":[{\"ref\":\"1\"},{\"ref\":\"2\"},{\"ref\":\"3\"}],\"none\":[]}],
 \"Person\":[
  {\"@id\":\"1\",\"id\":\"1\",\"name\":\"Luke\",\"age\":20,\"boom\":{\"error\":\"bang\"},
   \"nick({\\\"upper\\\":false})\":\"lu\",\"nick({\\\"upper\\\":true})\":\"LU\",
   \"friends\":[{\"ref\":\"2\"}],\"rival\":{\"ref\":\"2\"}},
  {\"@id\":\"2\",\"id\":\"2\",\"name\":\"Leia\",\"boom\":{\"error\":\"bang\"},\"friends\":[]},
  {\"@id\":\"3\",\"id\":\"3\",\"name\":null,\"boom\":{\"error\":\"bang\"},\"friends\":[]}]}\n";

/// Each text, and whether it is tables.
const ROWS: &[(&[u8], bool)] = &[
    // the least that is accepted
    (b"{\"Query\":[{\"@id\":\"q\"}],\"Person\":[]}", true),
    (
        b" {\"Person\":[{\"@id\":\"\"}],\n\"Query\":[{\"@id\":\"q\"}]} ",
        true,
    ),
    // other members of any kind
    (
        b"{\"Query\":[{\"@id\":\"q\",\"crew\":1.5}],\"Person\":[{\"@id\":\"1\",\"rival\":[{}]}],\"Ship\":7}",
        true,
    ),
    // of equal names the last counts
    (
        b"{\"Query\":7,\"Query\":[{\"@id\":\"q\",\"@id\":\"1\",\"@id\":\"r\"}],\"Person\":[{\"@id\":\"1\",\"age\":1.5,\"age\":1}]}",
        true,
    ),
    (
        b"{\"Query\":[{\"@id\":\"q\"}],\"Person\":[{\"@id\":\"1\",\"age\":1,\"age\":1.5}]}",
        false,
    ),
    // no JSON
    (b"", false),
    (b"{", false),
    (b"\xff", false),
    (
        b"{\"Query\":[{\"@id\":\"q\"}],\"Person\":[],\"Ship\":\"\xff\"}",
        false,
    ),
    (b"{\"Query\":[{\"@id\":\"q\"}],\"Person\":[]} x", false),
    // another form of the whole
    (b"[]", false),
    (b"{\"Person\":[]}", false),
    (b"{\"Query\":[],\"Person\":[]}", false),
    (b"{\"Query\":{\"@id\":\"q\"},\"Person\":[]}", false),
    (
        b"{\"Query\":[{\"@id\":\"q\"},{\"@id\":\"r\"}],\"Person\":[]}",
        false,
    ),
    (b"{\"Query\":[{\"@id\":\"q\"}]}", false),
    (b"{\"Query\":[{\"@id\":\"q\"}],\"Person\":{}}", false),
    // rows and their ids
    (b"{\"Query\":[\"q\"],\"Person\":[]}", false),
    (b"{\"Query\":[{}],\"Person\":[]}", false),
    (b"{\"Query\":[{\"@id\":\"q\"}],\"Person\":[7]}", false),
    (
        b"{\"Query\":[{\"@id\":\"q\"}],\"Person\":[{\"id\":\"1\"}]}",
        false,
    ),
    (
        b"{\"Query\":[{\"@id\":\"q\"}],\"Person\":[{\"@id\":1}]}",
        false,
    ),
    (
        b"{\"Query\":[{\"@id\":\"q\"}],\"Person\":[{\"@id\":\"1\"},{\"@id\":\"2\"},{\"@id\":\"1\"}]}",
        false,
    ),
    (
        b"{\"Query\":[{\"@id\":\"1\"}],\"Person\":[{\"@id\":\"1\"}]}",
        false,
    ),
    // the hero
    (
        b"{\"Query\":[{\"@id\":\"q\",\"hero\":null}],\"Person\":[]}",
        true,
    ),
    (
        b"{\"Query\":[{\"@id\":\"q\",\"hero\":{\"error\":\"e\"}}],\"Person\":[]}",
        true,
    ),
    (
        b"{\"Query\":[{\"@id\":\"q\",\"hero\":{\"ref\":\"2\"}}],\"Person\":[{\"@id\":\"1\"}]}",
        false,
    ),
    (
        b"{\"Query\":[{\"@id\":\"q\",\"hero\":{\"ref\":\"q\"}}],\"Person\":[{\"@id\":\"1\"}]}",
        false,
    ),
    (
        b"{\"Query\":[{\"@id\":\"q\",\"hero\":{\"ref\":\"1\",\"x\":1}}],\"Person\":[{\"@id\":\"1\"}]}",
        false,
    ),
    (
        b"{\"Query\":[{\"@id\":\"q\",\"hero\":\"1\"}],\"Person\":[{\"@id\":\"1\"}]}",
        false,
    ),
    // cells of persons
    (
        b"{\"Query\":[{\"@id\":\"q\"}],\"Person\":[{\"@id\":\"1\",\"age\":-2147483648}]}",
        true,
    ),
    (
        b"{\"Query\":[{\"@id\":\"q\"}],\"Person\":[{\"@id\":\"1\",\"age\":-2147483649}]}",
        false,
    ),
    (
        b"{\"Query\":[{\"@id\":\"q\"}],\"Person\":[{\"@id\":\"1\",\"age\":2147483647}]}",
        true,
    ),
    (
        b"{\"Query\":[{\"@id\":\"q\"}],\"Person\":[{\"@id\":\"1\",\"age\":2147483648}]}",
        false,
    ),
    (
        b"{\"Query\":[{\"@id\":\"q\"}],\"Person\":[{\"@id\":\"1\",\"age\":\"20\"}]}",
        false,
    ),
    (
        b"{\"Query\":[{\"@id\":\"q\"}],\"Person\":[{\"@id\":\"1\",\"name\":5}]}",
        false,
    ),
    (
        b"{\"Query\":[{\"@id\":\"q\"}],\"Person\":[{\"@id\":\"1\",\"id\":{\"ref\":\"1\"}}]}",
        false,
    ),
    (
        b"{\"Query\":[{\"@id\":\"q\"}],\"Person\":[{\"@id\":\"1\",\"boom\":{\"error\":\"e\",\"x\":1}}]}",
        false,
    ),
    (
        b"{\"Query\":[{\"@id\":\"q\"}],\"Person\":[{\"@id\":\"1\",\"boom\":{\"error\":5}}]}",
        false,
    ),
];

/// What is told of a document over these tables.
fn answered(alloc: Global, tables: &[u8], document: &[u8]) -> Result<String, Fail> {
    let shelf = MemoryShelf::new(files(alloc, SCHEMA, tables, document)?, Vec::new(alloc));
    run(alloc, "local s t d - 0 7", shelf, no_input(alloc), NO_FAULT)?.told(alloc)
}

#[test]
fn which_tables_are_read(rt: HostRuntime) -> Result<(), Fail> {
    let alloc = rt.alloc();
    for (tables, is_read) in ROWS {
        let told = answered(alloc, tables, b"{ hero { id } }")?;
        let text = String::from_utf8_lossy(alloc, tables)?;
        let front = if *is_read { "0|" } else { NOT_BUILT };
        assert!(rt; told.starts_with(front), "{text}");
    }
    Ok(())
}

#[test]
fn what_the_example_says_of_each_hero(rt: HostRuntime) -> Result<(), Fail> {
    let alloc = rt.alloc();
    // The id that `hero` refers to, the document, and what is merged.
    for &(id, document, merged) in &[
        (
            "1",
            "{ hero { id name age } }",
            "{\"data\":{\"hero\":{\"age\":20,\"id\":\"1\",\"name\":\"Luke\"}},\"errors\":[],\"failures\":[]}",
        ),
        (
            "2",
            "{ hero { id name age } }",
            "{\"data\":{\"hero\":{\"age\":null,\"id\":\"2\",\"name\":\"Leia\"}},\"errors\":[],\"failures\":[]}",
        ),
        (
            "3",
            "{ hero { id age } }",
            "{\"data\":{\"hero\":{\"age\":null,\"id\":\"3\"}},\"errors\":[],\"failures\":[]}",
        ),
        (
            "3",
            "{ hero { name } }",
            "{\"data\":{\"hero\":null},\"errors\":[{\"locations\":[{\"column\":10,\"line\":1}],\"message\":\"Null in a non-null position\",\"path\":[\"hero\",\"name\"]}],\"failures\":[]}",
        ),
        (
            "2",
            "{ hero { boom } }",
            "{\"data\":{\"hero\":null},\"errors\":[{\"locations\":[{\"column\":10,\"line\":1}],\"message\":\"bang\",\"path\":[\"hero\",\"boom\"]}],\"failures\":[]}",
        ),
    ] {
        let tables = joined(alloc, &[EXAMPLE_BEFORE, id, EXAMPLE_BEHIND])?;
        let told = answered(alloc, tables.as_bytes(), document.as_bytes())?;
        let line = joined(alloc, &["\nmerged ", merged, "\n"])?;
        assert!(rt; told.starts_with("0|"), "{document} of {id}");
        assert!(rt; told.ends_with(line.as_str()), "{document} of {id}");
    }
    Ok(())
}
