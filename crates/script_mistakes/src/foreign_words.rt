//! Words inside a line that other databases have.

/// What does here what such words ask for: a row `PLACES|WORDS|TEXT` each, of which the first counts.
/// A place is `@` and its name in `RULES`, `*` for any, or what may be there; several have a `+` between
/// them. The words are in any case; `a/b` is either, `_` any word, `$` the end of the line, and the
/// one after `^` comes just before. In a text `{}` is the place of a moment.
pub(crate) const WORDS: &str = "\
*|- -|a remark is a line of its own that begins with `#`\n\
*|#|a remark is a line of its own that begins with `#`\n\
*|/ *|a remark is a line of its own that begins with `#`\n\
*|/ /|a remark is a line of its own that begins with `#`\n\
@op|select|`query a{}: select name from people` reads rows, and `txn` writes them\n\
@op|replace/merge/upsert|there is none: `insert` refuses a row that is there, and `update` one that is not\n\
@insert.1|^into _|leave `into` out: `insert people (1) set name = 'Ann'`\n\
@insert.1|values|the key follows the table, and `set` the others: `insert people (1) set name = 'Ann'`\n\
@insert.1|set|`people (1)` names the row: `insert people (1) set name = 'Ann'`\n\
@insert value|_ ) values|there is no list of columns: `insert people (1) set name = 'Ann'`\n\
@insert value|_ , _ ) values|there is no list of columns: `insert people (1) set name = 'Ann'`\n\
@insert value|_ , _ , _ ) values|there is no list of columns: `insert people (1) set name = 'Ann'`\n\
@insert end|values|the other columns follow `set`: `insert people (1) set name = 'Ann'`\n\
@insert end+@set more|on conflict/duplicate|there is none: an insert of a row that is there is refused\n\
@insert end+@delete end+@set more|returning|there is no `returning`; a `query` line reads the row\n\
@update.1|set|`people (1)` names the row: `update people (1) set name = 'Ann'`\n\
@delete.1|^from _|leave `from` out: `delete people (1)`\n\
@delete.1|where|`people (1)` names the row: `delete people (1)`\n\
@set more+@update end+@insert end+@delete end|where|there is no `where` here: the values after the table \
name the row, as `people (1)`\n\
VALUE|default|leave the column out: it is null then, or its default\n\
VALUE|nil/none/undefined|`null` is no value\n\
VALUE|_ (|there are no functions: a value is written out\n\
VALUE|_ +/*/%/-|there are no expressions: a value is written out\n\
VALUE|?/:/$|there are no parameters: a value is written out\n\
VALUE|=|one `=` compares and sets\n\
@query.4|insert/update/delete|a query reads; `txn a{}: insert people (1)` writes\n\
@select more|^count (|there is no `count`: the reply ends with how many rows it has\n\
@select more|^distinct _|there is no `distinct`\n\
@select more|(|there are no functions: a query names columns\n\
@select more+@where|as|there is no `as`: a column keeps its name\n\
@select more+@where+@sign+@and|.|a query reads one table: name the column alone\n\
@select|distinct/all|leave it out\n\
@where|,|there is no join: a query reads one table\n\
@where|join/inner/left/right/full/cross/natural|there is no join: a query reads one table\n\
@where+@and|order|there is no `order by`: rows come by rising key\n\
@where+@and|limit/offset/fetch|there is no `limit`: conditions choose the rows\n\
@where+@and|group/having|there is no `group by`\n\
@where+@and|union/intersect/except|there is none: a query for each\n\
@where+@and|for|there is no lock: a `txn` line is refused if what it read has changed\n\
@and|or|there is no `or`: a query for each\n\
@and|,/&|`and` joins conditions\n\
@cond|(|there are no brackets: `and` joins conditions\n\
@sign|^not _|there is no `not`\n\
@sign|^exists (|there is no `exists`\n\
@sign|< >|there is no `<>`: `age <= 3` and `age >= 5` in a query each\n\
@sign|! =|there is no `!=`: `age <= 3` and `age >= 5` in a query each\n\
@sign|>|bounds are included: `age >= 4` for `age > 3`\n\
@sign|<|bounds are included: `age <= 2` for `age < 3`\n\
@sign|like/ilike/glob/regexp/similar/~|there is no `like`: `name between 'A' and 'B'` bounds a text\n\
@sign|in|there is no `in`: a query for each value\n\
@sign|is not|there is no `is not null`\n\
@sign|is|`age = null` finds the rows without a value\n\
@sign|not|there is no `not`\n\
@key|$|the key is one tuple: `key = (1)`\n\
@key|_|the key is one tuple, and is looked up whole: `key = (1)`\n\
@key.1|_|the key is one tuple: `key = (1)`\n\
@table.1|^if _|leave `if not exists` out\n\
int|^primary key|each key column says so: `id int key`\n\
int|^foreign key|there is no foreign key\n\
int|^unique (|there is no unique column\n\
int|^check (|there is no constraint\n\
int|^constraint _|there is no constraint\n\
int|float/double/real/decimal/numeric/money|there is no such type: the nearest is int, of whole numbers\n\
int|date/time/timestamp/timestamptz/datetime/interval/year|there is no such type: the nearest are int, as a \
count of seconds, and text, as '2026-12-31'\n\
int|json/jsonb/xml/uuid/blob/bytea/binary/varbinary/enum/array/clob|there is no such type: the nearest is \
text\n\
@decl key+@decl more+@new default+@new on+@add default+@add on|not null|leave it out: each column but the key \
may be null\n\
@decl key+@decl more+@new default+@new on+@add default+@add on|null|leave it out: each column but the key may \
be null\n\
@decl key+@decl more+@new default+@new on+@add default+@add on|unique|there is no unique column\n\
@decl key+@decl more+@new default+@new on+@add default+@add on|references|there is no foreign key\n\
@decl key+@decl more+@new default+@new on+@add default+@add on|check/constraint|there is no constraint\n\
@decl key+@decl more+@new default+@new on+@add default+@add on|collate|there is no `collate`\n\
@decl key+@decl more+@new default+@add default|(/[|a type is one word: `name text`\n\
@decl key+@decl more|primary|`id int key` declares a key column\n\
@decl key+@decl more|default|a default comes with a column that is added: \
`plan: add column age int default 0 on people`\n\
@decl key+@decl more|auto_increment/autoincrement/generated/identity|there is no counter: a row is given its \
key\n\
@index more+@new more+@add more|asc/desc|an index rises\n\
@index.3+@new index.3+@add index.3|using|there is one kind of index\n\
@change|create|`plan: add index by_name on people (name)` adds an index\n\
@change|rename|there is no line that renames\n\
@change|alter/modify/change|there is no line that changes a column: drop it and add another\n\
@new+@add|unique|there is no unique index; `add index by_name on people (name)` adds a plain one\n\
@new+@add|table|a table is declared before `open`; no line adds one later\n\
@new+@add|primary/foreign/constraint/check/key|there is no line that adds a key or a constraint\n\
@new+@add|_ int/text/bool|`add column age int on people`\n\
@change|table|a table is declared before `open`; no line adds one later\n\
@drop|table|no line drops a table\n\
@drop|primary/constraint/key|there is no line that drops a key or a constraint\n\
@drop name.1|$|the table follows, as `drop index by_name on people`\n\
@commit|$|each `txn` line commits itself; `commit w{}` commits what `prepare w by a: ..` has prepared\n\
.|_|the table comes first, as `people.by_name`\n\
.|$|the table comes first, as `people.by_name`\n";
