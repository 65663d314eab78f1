//! The jobs and their options, one a line, in the form that `hashbag_shell::table` reads.
use hashbag_shell::table::job_in;

/// What the parser, the help, the manual pages and the completions are made of.
pub static OPTIONS: &[&str] = &[
    "# hashbag_words | Counts words, lines, fields or matches of a pattern, and adds up files of counts",
    ": count | Count what is in text",
    ": tokens | Write each token of text as a line, escaped as in tsv, as it comes: for `sort` and `uniq -c`",
    ": merge | Add up counts",
    ": less | Take the counts of B from those of A",
    ": common | Show the lesser of the counts of A and B",
    ". Without a command, `count` is meant, so these count words, upper and lower case as one, and show the ten most common:
    hashbag_words --fold --top 10 text
    cat text | hashbag_words --fold --top 10
`hashbag_words count --help` says what else may be counted, and how it is shown.

The counts of an input are the sums of the counts of its parts, wherever the input is split at line ends. So parts may be counted in
parallel, here by GNU parallel:
    parallel --pipepart -a text --block 64M hashbag_words | hashbag_words merge

Exit status: 0 done; 1 nothing is shown, with --fail-empty; 2 bad arguments or a bad line; 3 an allocation failed; 4 a file can't be
opened, or a read or a write failed; 5 the counts add up to more than 2^64-1. With 2, 3 and 5 nothing was written, but to
standard output by `tokens` and `merge --sorted`, which write as they read.",
    "@ count tokens",
    "files FILE... | What is read; without a file, or for `-`, standard input",
    "@ merge",
    "files FILE... | Files of counts; without a file, or for `-`, standard input",
    "@ less common",
    "first A | Counts",
    "second B | Other counts",
    "@ count",
    "= What is counted",
    "@ tokens",
    "= What is written",
    "@ count tokens",
    "--by -b WHAT | What is counted: what is between white space, the words by the rules of Unicode, or whole lines \
        | of words unicode lines | default words | not --pattern",
    "--pattern -e REGEX | Count the matches of this pattern, within a line",
    "--group N | Count the N-th group of each match, from 1, in place of the whole match \
        | number | not --by --field --column | needs --pattern",
    "--field -f N | Count the N-th field of each line, from 1: what is between spaces and tabs \
        | number | in fields | not --by --pattern",
    "@ count",
    "--column NAME | Count the fields of the column of this name of CSV with a header; each input is read whole into memory \
        | in fields | not --by --pattern --lossy --skip-bad",
    "--delimiter -d CHAR | The character between fields, in place of blanks: an ASCII character or `tab`; each one ends a field; \
        for --column `,`, `;` or `tab` | not --by --pattern | needs fields",
    "@ tokens",
    "--delimiter -d CHAR | The character between fields, in place of blanks: an ASCII character or `tab`; each one ends a field \
        | not --by --pattern | needs fields",
    "@ count tokens",
    "--fold -i | Count upper and lower case as one; for --pattern, begin REGEX with `(?i)` too",
    "--lossy | Replace bytes that aren't UTF-8 by U+FFFD, and say in how many lines",
    "--encoding NAME | The encoding of text; what is written is UTF-8 \
        | of UTF-8 UTF-16 UTF-16LE UTF-16BE Latin-1 Windows-1252 | in-any-case | default UTF-8 | not --lossy",
    "@ count tokens merge less common",
    "= Inputs",
    "@ merge less common",
    "--from FORM | How counts are written | of tsv uniq | default tsv",
    "@ merge",
    "--sorted | The lines of one text of tsv are in the order of `LC_ALL=C sort`: write the sums as they come, in little memory \
        | not --from --files-from --recursive --top --share",
    "@ count tokens merge",
    "--files-from FILE | Read the names of the inputs from this file, one a line; `-`: from standard input | not files",
    "--null -0 | Names in that file end in a NUL byte, as `find -print0` writes them | needs --files-from | not files",
    "--recursive -r | Read the files in the named folders (by default the current one), without hidden ones and links",
    "@ count tokens merge less common",
    "--skip-bad | Skip bad lines, and say how many there were",
    "--progress | Report progress on standard error, also if it is no terminal",
    "--quiet -q | Report no progress, not even on a terminal | not --progress",
    "@ count merge less common",
    "= What is shown",
    "--top -n K | Show only the K most common, the most common first | number",
    "--least N | Show only what occurs N times or more often | number",
    "--except FILE | Show no token that is a line of this file",
    "--shard I/N | Show only the tokens of the I-th of N parts: each token is in one, by a fixed hash",
    "@ count tokens merge less common",
    "= Output",
    "@ count merge less common",
    "--to FORM | How counts are written | of tsv json uniq | default tsv",
    "--share | Write after each count its percent of all counts, shown or not",
    "--bars | Show each count of --top as a bar, for people at a terminal of $COLUMNS columns, or 80 | needs --top | not --share",
    "@ count tokens merge less common",
    "--output -o FILE | Write to this file, all or nothing, and not to standard output",
    "@ count merge less common",
    "--fail-empty | End with status 1 if nothing is shown",
];

/// Returns whether the first argument is the name of a job or an option of the whole program. If not, the job is `count`.
pub fn is_job(word: &str) -> bool {
    OPTIONS.iter().any(|line| job_in(line) == Some(word))
        || matches!(word, "help" | "-h" | "--help" | "-V" | "--version")
}
