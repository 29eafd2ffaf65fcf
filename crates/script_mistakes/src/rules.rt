//! The grammar of a script as a table of places in a line. `script_grammar` says which lines are
//! commands; this table only says what was expected where a bad line stops being one.

/// All rules, a line each, those of one place in the order in which they are named:
/// `PLACE|WHAT|NEXT`, a place, what may be there, and the place after it. Words in capitals are not
/// themselves: those that `numbers` has bounds of are numbers, `VALUE` is a value, `END` the end of
/// the line, and all others are names. One text, since a table of 300 triples takes the prover a minute.
pub(crate) const RULES: &str = "\
end|END|\n\
|open|end\n\
|pairs|end\n\
|check|check\n\
check|END|\n\
|status|end\n\
|log|end\n\
|length|length\n\
length|LENGTH|end\n\
|table|table\n\
table|NAME|table.1\n\
table.1|(|decl\n\
decl|COLUMN|type\n\
type|int|decl key\n\
type|text|decl key\n\
type|bool|decl key\n\
decl key|key|decl more\n\
decl key|,|decl\n\
decl key|)|end\n\
decl more|,|decl\n\
decl more|)|end\n\
|index|index\n\
index|NAME|index.1\n\
index.1|on|index.2\n\
index.2|TABLE|index.3\n\
index.3|(|index column\n\
index column|COLUMN|index more\n\
index more|,|index column\n\
index more|)|end\n\
|lease|lease\n\
lease|SERVER|lease.1\n\
lease.1|at|lease.2\n\
lease.2|M|end\n\
|commit|commit\n\
commit|WORK|commit.1\n\
commit.1|at|commit.2\n\
commit.2|M|end\n\
|next|next\n\
next|at|next.1\n\
next.1|M|end\n\
|txn|txn\n\
txn|SERVER|txn.1\n\
txn.1|at|txn.2\n\
txn.2|M|txn.3\n\
txn.3|:|op\n\
|prepare|prepare\n\
prepare|WORK|prepare.1\n\
prepare.1|by|prepare.2\n\
prepare.2|SERVER|prepare.3\n\
prepare.3|:|op\n\
op|insert|insert\n\
insert|TABLE|insert.1\n\
insert.1|(|insert value\n\
insert value|VALUE|insert more\n\
insert more|,|insert value\n\
insert more|)|insert end\n\
op|update|update\n\
update|TABLE|update.1\n\
update.1|(|update value\n\
update value|VALUE|update more\n\
update more|,|update value\n\
update more|)|update end\n\
op|delete|delete\n\
delete|TABLE|delete.1\n\
delete.1|(|delete value\n\
delete value|VALUE|delete more\n\
delete more|,|delete value\n\
delete more|)|delete end\n\
insert end|set|set\n\
insert end|;|op\n\
insert end|END|\n\
update end|set|set\n\
delete end|;|op\n\
delete end|END|\n\
set|COLUMN|set.1\n\
set.1|=|set.2\n\
set.2|VALUE|set more\n\
set more|,|set\n\
set more|;|op\n\
set more|END|\n\
|query|query\n\
query|SERVER|query.1\n\
query.1|at|query.2\n\
query.2|M|query.3\n\
query.3|:|query.4\n\
query.4|select|select\n\
select|*|from\n\
select|COLUMN|select more\n\
select more|,|select column\n\
select column|COLUMN|select more\n\
select more|from|from table\n\
from|from|from table\n\
from table|TABLE|where\n\
where|where|cond\n\
where|END|\n\
cond|key|key\n\
key|=|key.1\n\
key.1|(|key value\n\
key value|VALUE|key more\n\
key more|,|key value\n\
key more|)|and\n\
and|and|cond\n\
and|END|\n\
cond|COLUMN|sign\n\
sign|=|bound\n\
sign|>=|bound\n\
sign|<=|bound\n\
sign|between|between\n\
between|VALUE|between.1\n\
between.1|and|bound\n\
bound|VALUE|and\n\
|forge|forge\n\
forge|SERVER|forge.1\n\
forge.1|version|forge.2\n\
forge.2|N|forge.3\n\
forge.3|granted|forge.4\n\
forge.4|N|forge.5\n\
forge.5|until|forge.6\n\
forge.6|N|end\n\
|piece|piece\n\
piece|WORK|piece.1\n\
piece.1|of|piece.2\n\
piece.2|TABLE|piece.3\n\
piece.3|.|piece.4\n\
piece.4|NAME|piece.5\n\
piece.5|PIECE|piece.6\n\
piece.6|limit|piece.7\n\
piece.7|LIMIT|end\n\
|reorganise|reorganise\n\
reorganise|TABLE|reorganise.1\n\
reorganise.1|.|reorganise.2\n\
reorganise.2|NAME|reorganise.3\n\
reorganise.3|at|reorganise.4\n\
reorganise.4|M|reorganise.5\n\
reorganise.5|pieces|reorganise.6\n\
reorganise.6|PIECES|end\n\
|work|work\n\
work|TABLE|work.1\n\
work.1|.|work.2\n\
work.2|NAME|work.3\n\
work.3|at|work.4\n\
work.4|M|work.5\n\
work.5|limit|work.6\n\
work.6|LIMIT|end\n\
|publish|publish\n\
publish|at|publish.1\n\
publish.1|M|publish.2\n\
publish.2|:|move\n\
move|add|add\n\
move|move|go\n\
move|turn|turn\n\
go|TABLE|go.1\n\
go.1|.|go.2\n\
go.2|NAME|go.3\n\
go.3|to|state\n\
state|absent|move end\n\
state|delete_only|move end\n\
state|write_only|move end\n\
state|public|move end\n\
turn|TABLE|turn.1\n\
turn.1|.|turn.2\n\
turn.2|NAME|move end\n\
move end|;|move\n\
move end|END|\n\
|plan|plan\n\
plan|:|change\n\
change|add|new\n\
change|drop|drop\n\
change|abandon|abandon\n\
abandon|TABLE|abandon.1\n\
abandon.1|.|abandon.2\n\
abandon.2|NAME|change end\n\
drop|index|drop name\n\
drop|column|drop name\n\
drop name|NAME|drop name.1\n\
drop name.1|on|drop name.2\n\
drop name.2|TABLE|change end\n\
change end|;|change\n\
change end|END|\n\
add|index|add index\n\
add index|NAME|add index.1\n\
add index.1|on|add index.2\n\
add index.2|TABLE|add index.3\n\
add index.3|(|add column of\n\
add column of|COLUMN|add more\n\
add more|,|add column of\n\
add more|)|to\n\
add|column|add column\n\
add column|NAME|add type\n\
add type|int|add default\n\
add type|text|add default\n\
add type|bool|add default\n\
add default|default|add value\n\
add value|VALUE|add on\n\
add default|on|add table\n\
add on|on|add table\n\
add table|TABLE|to\n\
new|index|new index\n\
new index|NAME|new index.1\n\
new index.1|on|new index.2\n\
new index.2|TABLE|new index.3\n\
new index.3|(|new column of\n\
new column of|COLUMN|new more\n\
new more|,|new column of\n\
new more|)|change end\n\
new|column|new column\n\
new column|NAME|new type\n\
new type|int|new default\n\
new type|text|new default\n\
new type|bool|new default\n\
new default|default|new value\n\
new value|VALUE|new on\n\
new default|on|new table\n\
new on|on|new table\n\
new table|TABLE|change end\n\
to|to|state\n\
to|;|move\n\
to|END|\n";

/// The rules of a prompt alone, in whose lines `at M` may be left out, and of the lines of its own.
pub(crate) const LEFT_OUT: &str = "\
|advance|finish\n\
|finish|finish\n\
|help|help\n\
help|COMMAND|end\n\
help|END|\n\
|describe|describe\n\
describe|TABLE|end\n\
describe|END|\n\
|leases|end\n\
|progress|end\n\
|timeline|end\n\
|undo|end\n\
|cut|end\n\
|save|end\n\
|explain|explain\n\
explain|query|end\n\
explain|plan|end\n\
|quit|end\n\
finish|at|lease.2\n\
finish|END|\n\
check|TABLE|check.1\n\
check.1|.|check.2\n\
check.2|NAME|end\n\
lease.1|END|\n\
commit.1|END|\n\
next|END|\n\
txn.1|:|op\n\
query.1|:|query.4\n\
publish|:|move\n\
reorganise.3|pieces|reorganise.6\n\
work.3|limit|work.6\n";

/// A place, what may be there, and the place after it.
pub(crate) type Rule = (&'static str, &'static str, &'static str);

/// The rule that a line of a table is.
///
/// - `line`: the line.
pub(crate) fn rule_of(line: &'static str) -> Rule {
    let (place, rest) = line.split_once('|').unwrap_or((line, ""));
    let (what, next) = rest.split_once('|').unwrap_or((rest, ""));
    (place, what, next)
}
