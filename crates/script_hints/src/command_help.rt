//! What each command is for, and what else there is to know.
use script_mistakes::row_of;
use std::alloc::{AllocError, Global};

/// A command: its word, what it does, its form by an example, and its refusals.
const COMMANDS: &str = "\
length|a lease lasts N moments (10 if no line says it)|length N|\n\
table|declares a table: key columns first; types int, text, bool|table people (id int key, town \
text)|\n\
index|declares an index|index by_town on people (town)|\n\
open|opens what was declared|open|BadTable, BadLength\n\
lease|server a gets a lease|lease a at 5|MomentTooLarge\n\
txn|reads, prepares and commits|txn a at 6: insert people (1) set town = 'Ulm'; update people \
(2) set town = null; delete people (3)|NoServer, NoTable, NotPublic, WrongType, TooManyOps, \
MomentTooLarge, BadLease, LeaseEnded, WrongSchema, Conflict\n\
prepare|reads and prepares; commit w commits it|prepare w by a: insert people (1)|NoServer, \
NoTable, NotPublic, WrongType, TooManyOps\n\
commit|commits what prepare or piece has prepared|commit w at 7|NoWork, MomentTooLarge, \
BadLease, LeaseEnded, WrongSchema, NotWanted, WrongElement, Moved, Conflict\n\
query|rows by rising key; conditions =, >=, <=, between; explain shows the path|query a at 6: \
select town from people where town = 'Ulm' and key = (1)|NoServer, MomentTooLarge, BadLease, \
LeaseEnded, NoTable, NotPublic, WrongType\n\
forge|gives server a a lease by hand, to see what becomes of it|forge a version 1 granted 0 \
until 99|\n\
plan|the fewest steps to these changes, and keeps them; plan alone shows what is left|plan: add \
index i on people (town); add column age int default 0 on people; drop index j on people; \
abandon people.k|Unknown, NameTaken, StillIndexed, InChange, Limit\n\
next|publishes the next step of the plan|next at 20|NoPlan, TooEarly, Unfinished, and those of \
publish\n\
publish|publishes a version by one step|publish at 20: add index i on people (town) to \
delete_only; move people.i to write_only; turn people.i|MomentTooLarge, TooEarly, Unknown, \
NotAdjacent, WrongWay, Dependent, NameTaken, Limit, Unfinished, VersionsSpent\n\
reorganise|begins the fill or the clear that people.i wants|reorganise people.i at 30 pieces \
2|MomentTooLarge, NotWanted, StillUsed, Begun, BadCount\n\
work|runs it to its end, 100 rows a commit|work people.i at 30 limit 100|NotWanted, BadLimit, \
MomentTooLarge, WrongElement, Moved, Conflict\n\
piece|prepares 100 rows of piece 0; commit w commits them|piece w of people.i 0 limit \
100|NotWanted, BadPiece, Spent, BadLimit\n\
check|compares the pairs with the rows; check TABLE.NAME shows the rows and pairs of one element \
that differ, in any state|check people.by_town|\n\
pairs|prints each pair|pairs|\n\
status|a line of JSON; describe and progress say it for people|status|\n\
log|how many calls were accepted|log|\n\
describe|the columns and indexes of a table, or of all|describe people|\n\
leases|the leases of all servers|leases|\n\
progress|what is being added or dropped, and what it waits for|progress|\n\
advance|does the one act that is due: a begin, a version or a piece; forgets the kept \
plan|advance at 20|MomentTooLarge, VersionsSpent\n\
finish|carries all that is being added or dropped to its end, at later moments if it has to \
wait|finish at 20|MomentTooLarge, VersionsSpent\n\
timeline|the versions with their moments, and what is in progress|timeline|\n\
explain|by which path the query is answered; explain plan: .. shows the steps, and keeps \
none|explain query a: select town from people where town = 'Ulm'|\n\
help|what a command is for|help query|\n\
try|what is wrong with a line, which is not run|try lease a|\n\
undo|takes the last declaration back, before open|undo|\n\
cut|gives the memory of the log's entries back; no reply changes|cut|\n\
save|writes the state into a file, from which shell prompt --at FILE goes on|save people.saved|\n\
quit|ends the prompt|quit|\n";

/// Words that are no commands, and the command that they are in.
const WORDS: &str = "\
insert|txn\n\
update|txn\n\
delete|txn\n\
set|txn\n\
select|query\n\
from|query\n\
where|query\n\
between|query\n\
add|plan\n\
drop|plan\n\
abandon|plan\n\
move|publish\n\
turn|publish\n\
exit|quit\n";

/// What else there is to know.
const TOPICS: &str = "\
moments|a moment is a number of the script's own time, as in `lease a at 5`; moments never fall, and at a \
prompt `at M` may be left out: it is the last moment then\n\
values|a whole number of 64 bits, a text in single quotes with each quote in it twice, true, false or null\n\
types|int, a whole number of 64 bits; text, at most 1,024 bytes; bool\n\
names|an ASCII letter, and then letters, digits and `_`: at most 32 bytes\n\
states|absent, delete_only, write_only, public: a version moves an element by one of them\n\
key|a row is named by its key: `people (1)` in an operation, `key = (1)` in a query\n";

/// Other words for these.
const TOPIC_WORDS: &str = "\
moment|moments\n\
at|moments\n\
time|moments\n\
value|values\n\
null|values\n\
type|types\n\
int|types\n\
text|types\n\
bool|types\n\
name|names\n\
state|states\n\
keys|key\n";

// The text of what is no command, if there is one.
fn topic_text(word: &str) -> Option<&'static str> {
    row_of(TOPICS, row_of(TOPIC_WORDS, word).unwrap_or(word))
}

fn all_commands(alloc: Global) -> Result<String, AllocError> {
    let mut out = "help COMMAND explains one; `at M` may be left out\n".to_string(alloc)?;
    for line in COMMANDS.lines() {
        let (name, rest) = line.split_once('|').unwrap_or((line, ""));
        let (about, _) = rest.split_once('|').unwrap_or((rest, ""));
        write!(out, "{name:<10}  {about}\n")?;
    }
    Ok(out)
}

// A command's form, what it is for, and its refusals.
fn command_text(alloc: Global, row: &str) -> Result<String, AllocError> {
    let (about, rest) = row.split_once('|').unwrap_or((row, ""));
    let (form, refusals) = rest.split_once('|').unwrap_or((rest, ""));
    let mut out = format!(in alloc; "{form}\n{about}")?;
    if !refusals.is_empty() {
        out.push_str("\nrefusals: ")?;
        out.push_str(refusals)?;
    }
    Ok(out)
}

/// What a command is for: its form, by an example, and its refusals; what there is to know of another
/// word; or all commands, a line each. Refused only when out of memory.
///
/// - `word`: the command's word, a word of its line, or another; all commands if it is none.
pub(crate) fn help_text(alloc: Global, word: &str) -> Result<String, AllocError> {
    if let Some(row) = row_of(COMMANDS, row_of(WORDS, word).unwrap_or(word)) {
        return command_text(alloc, row);
    }
    match topic_text(word) {
        Some(text) => text.to_string(alloc),
        None => all_commands(alloc),
    }
}
