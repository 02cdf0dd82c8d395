// The titles of a text that a table has, read as the definitions' parser of the table reads them.
#![tactic(auto)]

ghost use Rattle.std.specs.Prelude.{◌<◌, IfOk};
ghost use Rattle.octets.specs.Codec.{table_parser};
ghost use Rattle.options.specs.Options.{members};
ghost use Rattle.edns.specs.Edns.{flags, rcodes};
ghost use Rattle.edns.specs.Table.{held};
ghost use Rattle.json_text.specs.Document.{ad_titles};
ghost use Rattle.parse_tokens.specs.Cursor.{Safe};
ghost use Rattle.parse_tables.specs.Rows.{tried, RowRead};

use edns::rcode_table;
use parse_tokens::{Cursor, Stop, literal};

// The title of one of a table's rows, tried in order, and its key. Where none is there, the reader stops at the furthest
// place that a row reached.
#[tactic(auto, using(crate::specs::Rows::row_steps))]
fn row_of(text: &[u8], c: Cursor, table: &[(u32, &[u8])]) -> Result<(Cursor, u32), Stop>
    requires { Safe text.now c }
    ensures { RowRead (tried (held table.now)) text.now c result }
{
    let mut far = c.at;
    for row in table {
        match literal(text, c, row.1) {
            Ok(c) => return Ok((c, row.0)),
            Err(at) => far = far.max(at),
        }
    }
    Err(far)
}

// FLAGS by the DO bit.
static FLAGS: [(u32, &[u8]); 2] = [(0, b"[]"), (1, b"[\"DO\"]")];

// FLAGS.
pub fn flags(text: &[u8], c: Cursor) -> Result<(Cursor, u32), Stop>
    requires { Safe text.now c }
    ensures { RowRead (table_parser flags) text.now c result }
{
    row_of(text, c, &FLAGS)
}

// AD's titles by Z.
static AD_TITLES: [(u32, &[u8]); 2] = [(0, b",\"AD\":"), (1, b",\"Z\":1,\"AD\":")];

// AD's title, with or without Z's member before it.
pub fn ad_title(text: &[u8], c: Cursor) -> Result<(Cursor, u32), Stop>
    requires { Safe text.now c }
    ensures row_read { RowRead (table_parser ad_titles) text.now c result }
    ensures key_bound { IfOk result (λ x. x.1 < 2) }
{
    row_of(text, c, &AD_TITLES)
}

// RCODE.
pub fn rcode(text: &[u8], c: Cursor) -> Result<(Cursor, u32), Stop>
    requires { Safe text.now c }
    ensures { RowRead (table_parser rcodes) text.now c result }
{
    row_of(text, c, rcode_table())
}

// Option names by code.
static OPTIONS: [(u32, &[u8]); 10] = [
    (3, b"NSID"),
    (5, b"DAU"),
    (6, b"DHU"),
    (7, b"N3U"),
    (9, b"EXPIRE"),
    (10, b"COOKIE"),
    (11, b"KEEPALIVE"),
    (12, b"PADDING"),
    (14, b"KEYTAG"),
    (15, b"EDE"),
];

// An option's name.
pub fn option_name(text: &[u8], c: Cursor) -> Result<(Cursor, u32), Stop>
    requires { Safe text.now c }
    ensures { RowRead (table_parser members) text.now c result }
{
    row_of(text, c, &OPTIONS)
}
