//! The form of a line, or of a part of one, by an example.
use crate::table::row_of;

/// An example of each command and each part of one: a row `NAME|FORM` each. A place is in the part that
/// its name begins with. In a form `{}` is the place of a moment.
const FORMS: &str = "\
length|`length 10`\n\
table|`table people (id int key, name text)`\n\
decl|`table people (id int key, name text)`\n\
type|`table people (id int key, name text)`\n\
index|`index by_name on people (name)`\n\
lease|`lease a at 5`\n\
commit|`commit w at 5`\n\
next|`next at 5`\n\
txn|`txn a{}: insert people (1) set name = 'Ann'`\n\
prepare|`prepare w by a: insert people (1) set name = 'Ann'`\n\
op|`insert people (1)`\n\
insert|`insert people (1) set name = 'Ann', age = 30`\n\
update|`update people (1) set name = 'Ann', age = 30`\n\
delete|`delete people (1)`\n\
set|`update people (1) set name = 'Ann', age = 30`\n\
query|`query a{}: select name from people where age >= 30`\n\
select|`select name, age from people where age >= 30`\n\
from|`select name, age from people where age >= 30`\n\
where|`select name, age from people where age >= 30`\n\
cond|`where name = 'Ann' and age >= 30`\n\
sign|`where name = 'Ann' and age >= 30`\n\
bound|`where name = 'Ann' and age >= 30`\n\
and|`where name = 'Ann' and age >= 30`\n\
between|`where age between 20 and 30`\n\
key|`where key = (1)`\n\
forge|`forge a version 1 granted 0 until 99`\n\
piece|`piece w of people.by_name 0 limit 100`\n\
reorganise|`reorganise people.by_name{} pieces 4`\n\
work|`work people.by_name{} limit 100`\n\
publish|`publish{}: add index by_name on people (name); move people.by_age to public`\n\
move|`add index by_name on people (name); move people.by_age to public`\n\
go|`move people.by_name to write_only`\n\
state|`move people.by_name to write_only`\n\
turn|`turn people.by_name`\n\
plan|`plan: add index by_name on people (name); drop column age on people`\n\
change|`add index by_name on people (name); drop column age on people`\n\
drop|`drop index by_name on people`\n\
abandon|`abandon people.by_name`\n\
add index|`add index by_name on people (name)`\n\
add|`add column age int default 0 on people`\n\
new index|`add index by_name on people (name)`\n\
new|`add column age int default 0 on people`\n\
check|`check people.by_name`\n\
finish|`finish at 5`\n\
describe|`describe people`\n";

/// The form of what a place is in, if the table has it.
///
/// - `place`: the name of the place.
pub(crate) fn form_of(place: &str) -> Option<&'static str> {
    let (part, _) = place.split_once('.').unwrap_or((place, ""));
    match row_of(FORMS, part) {
        Some(form) => Some(form),
        None => {
            let (first, _) = part.split_once(' ').unwrap_or((part, ""));
            row_of(FORMS, first)
        }
    }
}
