//! The scripts of `examples/`. `write_examples` writes this file.
use crate::statuses::{Plain, first_wrong};
use std::test::Fail;

const FIRST: &[u8] = b"# One server, n1, is made and started. Its disks are in memory.\n\
cluster n1\n\
# It stands for election, and leads: it is the only voter.\n\
elect n1\n\
# A table. A write is answered when it was applied, so nothing is written yet.\n\
ask n1 POST /db/execute [\"CREATE TABLE foo (id INTEGER PRIMARY KEY, name TEXT, age INTEGER)\"]\n\
# A row.\n\
ask n1 POST /db/execute [\"INSERT INTO foo(name, age) VALUES('fiona', 20)\"]\n\
# The server applies what is committed, and answers both writes.\n\
apply n1\n\
# A query is answered at once, from the server's own database.\n\
ask n1 POST /db/query?level=none [\"SELECT * FROM foo\"]\n\
";

const FIRST_TEXT: &[u8] = b"up n1 boot 1 term 0 last 0\n\
answer 1 200 {\"results\":[{}]}\n\
answer 2 200 {\"results\":[{\"last_insert_id\":1,\"rows_affected\":1}]}\n\
answer 3 200 {\"results\":[{\"columns\":[\"id\",\"name\",\"age\"],\"types\":[\"integer\",\"text\",\"integer\"],\"values\":[[1,\"fiona\",20]]}]}\n\
";

const CRASH: &[u8] = b"# One server, n1, is made and started.\n\
cluster n1\n\
# It leads.\n\
elect n1\n\
# A table: the second entry of the log, behind the first of every term, which is empty.\n\
ask n1 POST /db/execute [\"CREATE TABLE foo (id INTEGER PRIMARY KEY, name TEXT)\"]\n\
# A row: the third entry.\n\
ask n1 POST /db/execute [\"INSERT INTO foo(name) VALUES('fiona')\"]\n\
# Both are answered. From here on no crash takes them away.\n\
apply n1\n\
# The next entry is written in four calls: its bytes, a sync, its mark, a sync. Two calls pass, and the crash at the third\n\
# leaves what was synced.\n\
stop n1 2 0\n\
# This write is broken off there: the server goes down, and answers nothing.\n\
ask n1 POST /db/execute [\"INSERT INTO foo(name) VALUES('declan')\"]\n\
# The server starts from its files. It boots for the second time, and its log ends with the third entry.\n\
start n1\n\
# It leads again, in a new term.\n\
elect n1\n\
# It applies its log from the beginning. Nobody waits for an answer.\n\
apply n1\n\
# The row that was answered is there; the one that wasn't is not.\n\
ask n1 POST /db/query?level=none [\"SELECT * FROM foo\"]\n\
# Once more, but three calls pass, and the crash at the fourth leaves the bytes as they read, synced or not.\n\
stop n1 3 1\n\
# This write is broken off behind its mark. It isn't answered either.\n\
ask n1 POST /db/execute [\"INSERT INTO foo(name) VALUES('karl')\"]\n\
# The server starts: now the entry stands, as the fifth.\n\
start n1\n\
# It leads, in the third term.\n\
elect n1\n\
# It applies its log.\n\
apply n1\n\
# The row is there. A write without an answer may have been done or not; one with an answer was done.\n\
ask n1 POST /db/query?level=none [\"SELECT * FROM foo\"]\n\
# At the end the script writes which asks were never answered.\n\
";

const CRASH_TEXT: &[u8] = b"up n1 boot 1 term 0 last 0\n\
answer 1 200 {\"results\":[{}]}\n\
answer 2 200 {\"results\":[{\"last_insert_id\":1,\"rows_affected\":1}]}\n\
down n1\n\
up n1 boot 2 term 1 last 3\n\
answer 4 200 {\"results\":[{\"columns\":[\"id\",\"name\"],\"types\":[\"integer\",\"text\"],\"values\":[[1,\"fiona\"]]}]}\n\
down n1\n\
up n1 boot 3 term 2 last 5\n\
answer 6 200 {\"results\":[{\"columns\":[\"id\",\"name\"],\"types\":[\"integer\",\"text\"],\"values\":[[1,\"fiona\"],[2,\"karl\"]]}]}\n\
pending 3\n\
pending 5\n\
";

const ERRORS: &[u8] = b"# One server, n1, is made and started. Nobody leads yet.\n\
cluster n1\n\
# A write at a server that doesn't lead is refused, with the status 503. Its number stays its own.\n\
ask n1 POST /db/execute [\"CREATE TABLE foo (id INTEGER PRIMARY KEY, name TEXT)\"]\n\
# The server leads.\n\
elect n1\n\
# A list of statements: each has a result of its own, and one that fails keeps none of the others from being done.\n\
ask n1 POST /db/execute [\"CREATE TABLE foo (id INTEGER PRIMARY KEY, name TEXT)\",\"INSERT INTO bar(name) VALUES('fiona')\",\"INSERT INTO foo(name) VALUES('fiona')\",\"SELEC 1\"]\n\
# They are done, and answered.\n\
apply n1\n\
# A query of a table that isn't there has an error as its result.\n\
ask n1 POST /db/query?level=none [\"SELECT * FROM bar\",\"SELECT * FROM foo\"]\n\
# The server stops at once.\n\
stop n1\n\
# It shows as down.\n\
show n1\n\
# An ask at a server that is down is never answered.\n\
ask n1 POST /db/query?level=none [\"SELECT * FROM foo\"]\n\
# There is no server n2. The script ends here: its last line says where, standard error says why, and the status is 3.\n\
elect n2\n\
# No line behind it is done.\n\
start n1\n\
";

const ERRORS_TEXT: &[u8] = b"up n1 boot 1 term 0 last 0\n\
answer 1 503 leader not found: term 0\n\
answer 2 200 {\"results\":[{},{\"error\":\"no such table: bar\"},{\"last_insert_id\":1,\"rows_affected\":1},{\"error\":\"near \\\"SELEC\\\": syntax error\"}]}\n\
answer 3 200 {\"results\":[{\"error\":\"no such table: bar\"},{\"columns\":[\"id\",\"name\"],\"types\":[\"integer\",\"text\"],\"values\":[[1,\"fiona\"]]}]}\n\
down n1\n\
show n1 down\n\
stopped: line 20\n\
";

const EXAMPLES: [Plain; 3] = [
    (&[b"cluster"], FIRST, 0, FIRST_TEXT),
    (&[b"cluster"], CRASH, 0, CRASH_TEXT),
    (&[b"cluster"], ERRORS, 3, ERRORS_TEXT),
];

#[test]
fn examples(rt: HostRuntime) -> Result<(), Fail> {
    assert_eq!(rt; first_wrong(rt.alloc(), &EXAMPLES)?, None);
    Ok(())
}
