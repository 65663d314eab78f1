//! The subcommands and all options, one a line, in the form that `hashbag_shell::table` reads.

/// What the parser, the help, the manual pages and the completions are made of.
pub static OPTIONS: &[&str] = &[
    "# hashbag_ledger | Enters movements into a stock, and writes the balance.",
    ": total | Enters files of movements into a stock in a file, and writes the balance",
    ": enter | Enters files of movements, each whole or not at all",
    ": take | Removes some of an article: enters one movement",
    ": put | Adds some of an article: enters one movement",
    ": count | Enters and writes the differences between the stock and what was counted",
    ": balance | Writes the balance",
    ": history | Writes the movements of an article, with the balance after each",
    ": batches | Writes what was entered, and when",
    ": show | Writes the movements of a batch, with the balance after each",
    ": undo | Enters the opposite movements of a batch, all or none",
    ": verify | Counts all movements again, and compares the balance and the refusals",
    ": close | Begins a new database with the balance of this one",
    ". `hashbag_ledger enter --help` has the options of `enter`, and so for each subcommand. `total` needs no database:
hashbag_ledger total --start stock.csv monday.csv. The others need --db, the database that keeps a stock:
hashbag_ledger enter --db stock.db monday.csv

Status: 0 done, 1 a movement or an undo was refused, or a stock doesn't agree with its movements, 2 bad arguments, a bad line or a bad
database, 3 no memory, 4 a read or a write failed, 5 a total is too large, 6 a file was entered before, 7 a database is in use.",
    "@ total",
    "MOVES.csv MOVES.csv... | Movements, in the order of the files and of their lines",
    "= Files and columns",
    "--start STOCK.csv | The stock at the beginning",
    "--start-columns NAMES | The columns of the stock at the beginning | default article,number",
    "--columns -c NAMES | The columns of movements: article,change or article,kind,number | default article,change",
    "= Numbers and fields",
    "--scale -s D | How many decimals numbers may have; all D are written | of 0 1 2 3 4 5 6 7 8 9 | default 0",
    "--mark MARK | What is before decimals | of . , | default .",
    "--delimiter -d DELIMITER | What is between fields, also of CSV that is written | of , ; tab \\t | default ,",
    "--encoding NAME | The encoding of movements; what is written is UTF-8 \
        | of UTF-8 UTF-16 UTF-16LE UTF-16BE Latin-1 Windows-1252 | in-any-case | default UTF-8",
    "--start-encoding NAME | The encoding of the stock at the beginning \
        | of UTF-8 UTF-16 UTF-16LE UTF-16BE Latin-1 Windows-1252 | in-any-case | default UTF-8",
    "= Output",
    "--output -o FILE | Where the balance is written, in place of standard output; the old file is replaced once all is written",
    "--refused FILE | Where refusals are written as CSV, in place of standard error",
    "--strict | Ends at the first refusal, without a balance",
    "--progress | Report progress on standard error, also if it is no terminal",
    "--quiet -q | Report no progress | not --progress",
    ". All files are CSV with a header. `-` is standard input, which is read if no file is named.
A change is `5` or `+5` for what comes in, and `-5` for what goes out. With three columns the second is the kind, `in` or `out`.
A movement that asks for more than is there at that time is refused, and named with its file and line. The others are entered.
The balance is CSV with the columns of the stock, articles rising, and may be the --start of the next run. All is read before
anything is written, so the balance may replace the stock: hashbag_ledger total --start stock.csv monday.csv -o stock.csv

Status: 0 all entered, 1 some refused, 2 bad arguments or a bad line (FILE:LINE is named), 3 no memory, 4 a file can't be opened, or
a read or a write failed, 5 a total of more than 2^64-1. With 2 to 5 the file of -o is unchanged.",
    "@ enter take put count balance history batches show undo verify close",
    "--db FILE | The database | required",
    "--wait SECONDS | How long to wait while another process has the database open | number | default 5",
    "--progress | Report progress on standard error, also if it is no terminal",
    "@ enter",
    "--quiet -q | Doesn't say which batches were entered, and reports no progress | not --progress",
    "@ take put",
    "--quiet -q | Doesn't say which batch was entered, nor whether the article is new, and reports no progress | not --progress",
    "@ count undo",
    "--quiet -q | Doesn't say which batch was entered, and reports no progress | not --progress",
    "@ balance",
    "--quiet -q | Doesn't say which of the articles aren't there, and reports no progress | not --progress",
    "@ history",
    "--quiet -q | Doesn't say that the article has no movement, and reports no progress | not --progress",
    "@ batches show verify close",
    "--quiet -q | Reports no progress | not --progress",
    "@ enter",
    "MOVES.csv MOVES.csv... | Movements, each file a batch; `-` is standard input, which is read if neither a file nor --from is named",
    "= Files and columns",
    "--from STOCK.csv | The stock at the beginning, for a database that has none",
    "--start-columns NAMES | The columns of the stock at the beginning | default article,number",
    "--from-on DATE | The date of the stock at the beginning, as 2026-02-28; by default it has none",
    "@ take put history",
    "ARTICLE | The article",
    "@ take put",
    "NUMBER | How many, without a sign, with as many decimals as the database has",
    "--on DATE | The date of the movement, as 2026-02-28; by default it has none",
    "@ count",
    "COUNTED.csv | The articles with their counted numbers; standard input by default, or with `-` | optional",
    "--all | Counts each article that isn't named as 0",
    "--on DATE | The date of the count, as 2026-02-28; by default it has none",
    "--start-columns NAMES | The columns of articles and counted numbers | default article,number",
    "--encoding NAME | The encoding of what was counted; what is written is UTF-8 \
        | of UTF-8 UTF-16 UTF-16LE UTF-16BE Latin-1 Windows-1252 | in-any-case | default UTF-8",
    "--again | Enters a file also if it was entered before",
    "@ balance",
    "ARTICLE ARTICLE... | The articles to write, an absent one with 0; by default all that there are",
    "@ balance history batches show",
    "--to FORM | What is written; numbers with decimals are texts in JSON, always with a point | of csv table json | default csv",
    "@ balance",
    "--at DATE | The sum of what was entered with this date or an earlier one; a movement without a date has the day of its entry, in UTC",
    "@ show",
    "BATCH | The number of the batch, or the name of its file, as for `undo`",
    "@ undo",
    "BATCH | The number of the batch, or the name of its file: then the last batch of that file that wasn't undone | optional",
    "--last | The last batch that is no undo and wasn't undone",
    "@ close",
    "--into NEW | The new database | required",
    "@ take put count balance history batches show close",
    "--mark MARK | What is before decimals; by default what the database keeps, `.` if it is new | of . ,",
    "@ count balance history batches show close",
    "--delimiter -d DELIMITER | What is between fields; by default what the database keeps, `,` if it is new | of , ; tab \\t",
    "@ count balance history batches show",
    "--output -o FILE | Where the table is written, in place of standard output",
    "@ enter close",
    "--columns -c NAMES | The columns of movements, as article,change or article,kind,number; \
        by default what the database keeps, article,change if it is new",
    "--date NAME | The column of movements with their dates; by default what the database keeps, '' for none",
    "--note NAME | The column of movements with notes, which `history` and `show` write; by default what the database keeps, '' for none",
    "@ enter",
    "--date-form FORM | How that column has its dates; what is written has them as 2026-02-28, and so has --from-on \
        | of YYYY-MM-DD DD.MM.YYYY DD/MM/YYYY MM/DD/YYYY | default YYYY-MM-DD",
    "= Numbers and fields",
    "--mark MARK | What is before decimals; by default what the database keeps, `.` if it is new | of . ,",
    "--delimiter -d DELIMITER | What is between fields; by default what the database keeps, `,` if it is new | of , ; tab \\t",
    "--scale -s D | How many decimals numbers may have; a new database keeps it, 0 by default | of 0 1 2 3 4 5 6 7 8 9",
    "--encoding NAME | The encoding of movements; what is written is UTF-8 \
        | of UTF-8 UTF-16 UTF-16LE UTF-16BE Latin-1 Windows-1252 | in-any-case | default UTF-8",
    "--start-encoding NAME | The encoding of the stock at the beginning \
        | of UTF-8 UTF-16 UTF-16LE UTF-16BE Latin-1 Windows-1252 | in-any-case | default UTF-8",
    "= What is entered",
    "--refused FILE | Where refusals are written as CSV, in place of standard error",
    "--strict | Enters nothing if a movement is refused",
    "--again | Enters a file also if it was entered before",
    "@ enter take put count balance history batches show undo verify close",
    ". The database is a SQLite file; `sqlite3 stock.db` reads it too. Once a batch is entered it is on the disk. A file whose bytes were
entered before is not entered again, except with --again. A new database keeps the scale, the columns, also of dates and notes, the
delimiter and the mark of the call that makes it: later calls read and write by them, unless they name others.

Status: 0 done, 1 some movements were refused, an undo was refused or made before, or the stock doesn't agree with its movements, 2 bad
arguments, a bad line, no such batch, no stock or more than one, or a database that isn't one of a stock, 3 no memory, 4 a file can't
be opened, or a read or a write failed, 5 a total of more than 2^63-1, 6 a file was entered before or is named twice, 7 another process
has a database open.",
];
