//! First words of lines that other databases have.

/// What does here what such a line asks for: a row `WORDS|TEXT` each, of which the first counts. The
/// words are in any case; `a/b` is either, `_` any word and `$` the end of the line. In a text `{}` is
/// the place of a moment.
pub(crate) const LINES: &str = "\
create unique|there is no unique index; `plan: add index by_name on people (name)` adds a plain one\n\
create index|`plan: add index by_name on people (name)` adds an index, and before `open` \
`index by_name on people (name)` declares one\n\
create view/materialized|there is no view; `query a{}: select name from people` reads a table\n\
create trigger/function/procedure/rule|there is none: nothing runs inside the database\n\
create sequence|there is none: a row is given its key\n\
create database/schema|there is one database: declare its tables, then `open`\n\
create type/domain|there is none: types are int, text and bool\n\
create user/role|there are no users\n\
create temp/temporary|there is no temporary table\n\
create|`table people (id int key, name text)` declares a table, before `open`\n\
alter table _ rename|there is no line that renames\n\
alter table _ add primary|there is no line that changes a key: `table people (id int key)` declares it\n\
alter table _ add unique|there is no unique index; `plan: add index by_name on people (name)` adds a \
plain one\n\
alter table _ add foreign|there is no foreign key\n\
alter table _ add constraint/check|there is no constraint\n\
alter table _ add index/key|`plan: add index by_name on people (name)` adds an index\n\
alter table _ drop constraint/primary/foreign|there is no line that changes a key or a constraint\n\
alter table _ drop index/key|`plan: drop index by_name on people` drops an index\n\
alter table _ drop|`plan: drop column age on people` drops a column\n\
alter table _ alter/modify/change|there is no line that changes a type or a default: add another \
column, as `plan: add column age int on people`\n\
alter index|there is no line that renames an index: drop it and add another\n\
alter|`plan: add column age int on people` adds a column\n\
rename|there is no line that renames\n\
drop index|`plan: drop index by_name on people` drops an index\n\
drop column|`plan: drop column age on people` drops a column\n\
drop table|no line drops a table\n\
drop database/schema|there is one database, and no line drops it\n\
drop view|there is no view\n\
insert|`txn a{}: insert people (1) set name = 'Ann'` inserts a row\n\
update|`txn a{}: update people (1) set name = 'Ann'` changes a row\n\
delete|`txn a{}: delete people (1)` deletes a row\n\
replace/merge/upsert|there is none: `txn a{}: insert people (1)` refuses a row that is there, and \
`update` one that is not\n\
truncate|no line empties a table; `txn a{}: delete people (1)` deletes a row\n\
select count|there is no `count`: the reply to `query a{}: select * from people` ends with how many rows \
it has\n\
select|`query a{}: select name from people where key = (1)` reads a row\n\
with|there is no `with`; `query a{}: select name from people` reads one table\n\
begin/start/end|a `txn` line is a whole transaction, and commits itself: \
`txn a{}: insert people (1); delete people (2)`\n\
commit|each `txn` line commits itself; `commit w{}` commits what `prepare w by a: ..` has prepared\n\
rollback/abort|nothing is left to roll back: a `txn` line makes all of its operations or none\n\
savepoint/release|there is no savepoint: a `txn` line makes all of its operations or none\n\
lock|there is no lock: a `txn` line is refused if what it read has changed\n\
set|`set` follows a row: `txn a{}: update people (1) set name = 'Ann'`; there are no settings\n\
pragma|there are no settings\n\
analyze/analyse/vacuum/optimize|there is no such line, and no need of it\n\
reindex|no line rebuilds an index; `check` compares its pairs with the rows\n\
grant/revoke|there are no users\n\
use/connect|there is one database: declare its tables, then `open`\n\
copy/load|no line reads rows from a file; a `txn` line has up to 64 of them\n\
ok/refused|this is a reply, and no line\n\
bad line|this is a reply, and no line\n\
row (|this is a reply, and no line\n\
step _ :|this is a reply, and no line\n\
>|leave the prompt out: a line begins with its command\n\
. . _|leave the dots out: a line begins with its command\n\
_ @|leave the prompt out: a line begins with its command\n\
_ =/- >|leave the prompt out: a line begins with its command\n\
sqlite/mysql >|leave the prompt out: a line begins with its command\n";

/// The same for a prompt alone, whose own lines these rows name.
pub(crate) const PROMPT_LINES: &str = "\
exit/bye/logout|`quit` ends the prompt\n\
\\ q|`quit` ends the prompt\n\
: q/quit|`quit` ends the prompt\n\
. quit/exit/q|`quit` ends the prompt\n\
show index/indexes/create/columns|`describe people` shows a table with its indexes\n\
show/desc/tables/schema|`describe` shows all tables, and `describe people` one\n\
. schema/tables/indexes/indices/d|`describe` shows all tables, and `describe people` one\n\
\\ d/dt/di/l/dn|`describe` shows all tables, and `describe people` one\n\
?|`help` lists the commands\n\
\\ ?/h/help|`help` lists the commands\n\
. help|`help` lists the commands\n\
man/info|`help` lists the commands\n\
. read|`shell prompt FILE` answers the lines of a file\n\
\\ i/ir|`shell prompt FILE` answers the lines of a file\n\
source|`shell prompt FILE` answers the lines of a file\n\
. save/backup/dump|`save FILE` writes the state into a file\n\
. open/restore|`shell prompt --at FILE` opens what `save FILE` has written\n\
dump|`save FILE` writes the state into a file\n\
. import|no line reads rows from a file; a `txn` line has up to 64 of them\n\
\\ copy|no line reads rows from a file; a `txn` line has up to 64 of them\n\
. mode/headers/timer|there are no output modes; `shell prompt --json` answers in JSON\n\
\\ x/timing/a/t|there are no output modes; `shell prompt --json` answers in JSON\n\
explain|`explain query a: select name from people` shows the path, and `explain plan: ..` the steps\n";
