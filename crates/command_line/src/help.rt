//! The texts of the help, and of words that are not text.

pub(crate) const ABOUT: &str = "A database in memory whose schema changes while servers write";

pub(crate) const VERSION: &str = "1.0.0";

pub(crate) const ABOUT_RUN: &str =
    "Runs a script and writes a reply to each line to standard output";

pub(crate) const ABOUT_PROMPT: &str =
    "Answers each line as it comes, and says what is wrong with it";

pub(crate) const FILE: &str = "The file of the lines; standard input if it is left out";

pub(crate) const AT: &str =
    "Open the session at the checkpoint in this file, which `save FILE` has written";

pub(crate) const JSON: &str = "Answer each line by one line of JSON";

pub(crate) const STOP: &str = "End at the first line that is bad (status 1) or refused (status 7)";

pub(crate) const TIME: &str =
    "Write how long the parts took, and the rows a second, to standard error";

pub(crate) const ABOUT_ROLLOUT: &str =
    "Carries three schema changes to their end while four servers write";

/// What a rollout does and prints, and its exit statuses.
pub(crate) const ROLLOUTS: &str = "\
It opens a store with the table people (id int key, town text, age int) and 1000 rows. One operator adds an index
and a column with a default, and drops a column, side by side: it does what is due and keeps no plan. Meanwhile
four servers insert 1000 rows. What it prints is the same in every run: what the operator did, line by line, how
many rows were inserted meanwhile, and what an audit of the store finds.

Exit status:
  0  done
  4  a line could not be written
  6  a call was refused, also if memory ran out";

/// What a prompt is, by examples, and its exit statuses.
pub(crate) const PROMPTS: &str = "\
It takes the lines of `shell run --help`, and answers each before it reads the next. Lines that begin with `# `
are remarks: what is wrong with a line, and what may be done. `at M` may be left out: it is the last moment then.

Its own lines:
  help [COMMAND]      describe [TABLE]      leases      progress
  explain query S: select ..                plan        timeline
  explain plan: ..    check TABLE.NAME      advance     finish
  undo                cut                   save FILE   quit

For example
  shell prompt                 on a terminal the prompt is the newest version and the moment: v3 @20>
  rlwrap shell prompt          the same with a history of lines
  shell prompt --json          for a program: an object with reply, remarks, and what else there is to know
  shell prompt --at FILE       goes on where `save FILE` was answered
  shell prompt < script        another program may drive it over a pipe: each reply is written at once

Exit status:
  0  every line was good (refusals are replies too)
  1  a line was bad
  2  a wrong command line
  3  a line, or the checkpoint of --at, could not be read
  4  a reply could not be written
  5  out of memory";

pub(crate) const ABOUT_LOAD: &str =
    "Inserts rows on many threads while an index is added, and checks what came of it";

pub(crate) const ABOUT_SOAK: &str =
    "Updates rows on many threads for long, and checks what came of it";

/// What is printed if an argument is not UTF-8.
pub const NOT_UTF8: &str = "\
error: an argument is not valid UTF-8

For more information, try '--help'.
";

/// The exit statuses of the program as a whole.
pub(crate) const STATUSES: &str = "\
`shell run --help` explains the script language, `shell prompt --help` its use line by line, and
`shell load --help`, `shell soak --help` and `shell rollout --help` what these do and print.

For example
  shell prompt
  shell run examples/add_an_index.script
  shell load --servers 8 --rows 20000

Exit status:
  0  done (help, too)
  1  `run`, `prompt`: a line was bad
  2  a wrong command line
  3  `run`, `prompt`: a line could not be read; `run`: it is longer than 16 MiB, or is not UTF-8
  4  a reply, or a line of `load`, `soak` or `rollout`, could not be written
  5  out of memory
  6  `load`, `soak`: a difference was found, a step was refused, or a thread came to another end
     than a committed row or a finished piece; `rollout`: a call was refused
  7  `run --stop`: a line was refused";

/// The script language in short, and the exit statuses of `run`.
pub(crate) const SCRIPTS: &str = "\
A script has a command a line; empty lines and lines that begin with # are passed over.

Before open:
  length N                                     moments that a lease lasts (10)
  table T (ID int key, A int, B text, C bool)  1 to 4 key columns, then columns that may be null
  index I on T (A, B)
  open

Servers and their leases (M is a moment, a number; S is the server's name):
  lease S at M
  txn S at M: insert T (1) set A = 5, B = 'x'; update T (2) set A = null; delete T (3)
  prepare W by S: OPERATIONS                   read and prepared now under the name W,
  commit W at M                                and committed here
  query S at M: select A, B from T where key = (1)
  query S at M: select * from T where A = 5 and B between 'a' and 'b' and A >= 0
  forge S version V granted M until M          a lease by hand, to see what becomes of it

The schema (states: absent, delete_only, write_only, public):
  plan: add index J on T (A); add column D int on T; drop index I on T; drop column C on T
  next at M                                    publishes the next step of the plan
  publish at M: add index J on T (A); move T.I to write_only
  reorganise T.I at M pieces N                 begins the fill or the clear that I wants
  work T.I at M limit K                        works it off, K rows or pairs at a time
  piece W of T.I N limit K                     or one piece at a time: prepared here,
  commit W at M                                and committed here

What stands:
  check    audits the store       pairs   prints it
  status   a line of JSON         log     how many calls were accepted

For example, `shell run examples/add_an_index.script` adds an index to a table while two servers write.

Exit status:
  0  every line was good (refusals are replies too)
  1  a line was bad
  2  a wrong command line
  3  the script could not be read, is longer than 16 MiB, or is not UTF-8
  4  a reply could not be written
  5  out of memory
  7  with --stop: a line was refused

Standard error has a line `line N: ..` for each line that is bad or refused: what is wrong with it, and
what may be done.";

pub(crate) const SERVERS: &str = "Threads that insert rows, 1 to 16";

pub(crate) const ROWS: &str = "Rows to insert, 1 to 100000";

pub(crate) const PIECES: &str = "Pieces in which the index is filled, 1 to 64";

pub(crate) const WORKERS: &str = "Threads that fill the index, 1 to 16";

pub(crate) const LIMIT: &str = "Rows of a piece that are filled at a time, 1 to 1000";

pub(crate) const RATE: &str =
    "Rows a second over all servers, 1 to 1000000; without it as many as they can";

pub(crate) const SAMPLES: &str = "Write lines of JSON while it runs, in place of the five lines";

/// What a load does and prints, and the exit statuses of `load`.
pub(crate) const LOADS: &str = "\
It opens a store with the table t (id int key, a int) and no rows. The threads of --servers insert the
rows: key i, a = i mod 7. Meanwhile another thread adds the index i on (a) step by step, and the threads of
--workers fill it in --pieces pieces, --limit rows at a time. When all are done the store is audited, and
the receipts that the threads were given are compared with the log of accepted calls.

It prints five lines:
  rows N                            rows in the store
  missing N                         pairs that the rows want and the store lacks
  extra N                           pairs in the store that no row wants
  counts equal, or counts differ    whether there are as many receipts as entries of the log
  receipts ok, or receipts NAME     whether each receipt stands in the log at a place of its own, or else
                                    why one does not: NoPlace, OtherEntry, Twice

With --rate N row k is due k/N seconds after the start, and the steps of the index are due when a quarter, three
eighths and a half of the rows are; without it the index is added at once.

With --samples it prints objects in JSON, one a line, as things happen; `at` is the second since the start:
  kind sample     at, rows, median_us, p999_us, longest_us: about each tenth of a second, how many writes ended
                  since the last sample, and how many microseconds they took: the median, the 99.9 of 100 and
                  the longest. No times if none ended. A write's time counts from when it was due, or without a
                  rate from when a thread took it.
  kind version    at, version, moment, state: a version was published, in which the index has this state
  kind begin      at, moment: the fill of the index began
  kind filled     at: all pieces of the fill are finished
  kind audit      at, rows, missing, extra, counts, receipts: the last one, what the five lines say

Numbers are written in digits alone. For example, `shell load --servers 8 --rows 20000`.

Exit status (of several the first of 5, 4, 6):
  0  nothing is missing or extra, the counts are equal and the receipts ok
  2  a wrong command line
  4  a line could not be written
  5  out of memory, of any call or thread; none of the five lines, or no audit, is printed
  6  a difference was found, a step was refused, or a thread came to another end than a committed row or
     a finished piece";

pub(crate) const UPDATES: &str = "Updates, 1 to 1000000000";

pub(crate) const SOAKED_ROWS: &str = "Rows that are updated in turn, 1 to 100000";

pub(crate) const UPDATERS: &str = "Threads that update rows, 1 to 16";

/// What a soak does and prints, and the exit statuses of `soak`.
pub(crate) const SOAKS: &str = "\
It shows that a store that lives for long takes the memory of its rows. It opens one with the table
t (id int key, a int), and inserts --rows rows. Then the threads of --servers update them: update i, from 0 on, is
of row 7 i mod --rows. After each 10000 updates the log is cut; and while the first of each 100000 are made,
another thread adds the index i on (a), or drops it again. In the end the store is audited.

It prints a line at each tenth of the updates, at once, so that the memory of the process can be read then:
  done N                               updates that were made

In the end it prints three lines:
  updates N                            updates that were made
  entries N                            entries that the log ever had
  audit rows N missing M extra E       rows in the store, pairs that they want and the store lacks,
                                       and pairs that no row wants

Numbers are written in digits alone. For example, `shell soak --updates 300000 --servers 8`.

Exit status (of several the first of 5, 4, 6):
  0  nothing is missing or extra, and each insert and update has an entry in the log
  2  a wrong command line
  4  a line could not be written
  5  out of memory, of any call or thread; none of the three lines is printed
  6  a difference was found; or a step was refused, or a thread came to another end than a committed row:
     then none of the three lines is printed";
