//! The options, one a line, in the form that `hashbag_shell::table` reads.

/// What the parser, the help, the manual page and the completions are made of.
pub static OPTIONS: &[&str] = &[
    "# hashbag_match | Matches what was ordered with what was delivered, article by article.",
    "ORDERED.csv | What was ordered",
    "DELIVERED.csv | What was delivered",
    "= Columns",
    "--key -k COLUMNS | The columns of an article, separated by commas [default: article; 1 with --no-header]",
    "--number COLUMN | The column of numbers [default: number; 2 with --no-header]",
    "--delivered-key COLUMNS | The names of the key columns in DELIVERED.csv, if they are others",
    "--delivered-number COLUMN | The name of the column of numbers in DELIVERED.csv, if it is another",
    "--each-line | Read no column of numbers: each line counts as one \
        | not --number --delivered-number --scale --blank-is-zero --group-mark",
    "--no-header | Read files without a header; their columns are named 1, 2 and so on",
    "--blank-is-zero | Read an empty field of numbers as 0",
    "--group-mark MARK | What may be before every third digit, counted from the decimal mark | of . , ' space ␣ nbsp",
    "--trim | Remove the spaces and tabs at both ends of the fields of an article",
    "--fold -i | Read upper and lower case in the fields of an article as one",
    "= Numbers and fields",
    "--scale -s D | How many decimals numbers may have; all D are written | of 0 1 2 3 4 5 6 7 8 9 | default 0",
    "--mark MARK | What is before decimals | of . , | default .",
    "--delimiter -d DELIMITER | What is between fields, also of CSV that is written | of , ; tab \\t | default ,",
    "--delivered-delimiter DELIMITER | What is between fields in DELIVERED.csv, if it is another | of , ; tab \\t",
    "--delivered-mark MARK | What is before decimals in DELIVERED.csv, if it is another | of . ,",
    "--encoding NAME | The encoding of both files; what is written is UTF-8 \
        | of UTF-8 UTF-16 UTF-16LE UTF-16BE Latin-1 Windows-1252 | in-any-case | default UTF-8",
    "--delivered-encoding NAME | The encoding of DELIVERED.csv, if it is another \
        | of UTF-8 UTF-16 UTF-16LE UTF-16BE Latin-1 Windows-1252 | in-any-case",
    "= Output",
    "--only ROWS | Which articles are written; the sums are of all | of missing surplus differing all | default all",
    "--to FORM | How rows are written | of table csv json | default table",
    "--carry COLUMNS | Columns that are written too, as in the first line with the article",
    "--max-errors N | How many bad lines of a file are named; 0 for all | number | default 10",
    "--progress | Report progress on standard error, also if it is no terminal",
    "--quiet -q | Name no articles that differ only in case, white space or normal form, and report no progress | not --progress",
    "--output -o FILE | The file that is written, whole or not at all, in place of standard output",
    ". Both files are CSV with a header, or without one; their columns are found by name. An article may be on several lines; its numbers add up.
`-` is standard input.

Example: hashbag_match --only differing ordered.csv delivered.csv
         hashbag_match --key sku,lot --number qty --delivered-number Menge --scale 2 ordered.csv delivered.csv
         hashbag_match --each-line --no-header --trim --fold ordered.txt delivered.txt
         hashbag_match --encoding UTF-16 --delimiter tab ordered.txt delivered.txt

Status: 0 they agree, 1 they differ, 2 bad arguments or a bad line (FILE:LINE is said), 3 no memory, 4 a file can't be opened, or a
read or a write failed, 5 the numbers of a file add up to more than 2^64-1.",
];
