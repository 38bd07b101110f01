//! What follows the options in a help text.

/// After the commands.
pub(crate) const ALL: &str = "Examples:
  sqrescue check ledger.db                    check the structure of the database with its log
  sqrescue check --deep ledger.db             also check records, schema and indexes
  sqrescue show ledger.db --commits           list the commits in the write-ahead log
  sqrescue show ledger.db --pages             print what each page is used for
  sqrescue rows ledger.db --table entry       print the rows of a table
  sqrescue diff ledger.db                     print the rows that the log changed
  sqrescue salvage ledger.db --to ledger.sql  save the readable rows of a damaged database
  sqrescue recover ledger.db --to copy.db     write the recovered database to a new file
  sqrescue recover ledger.db                  recover it in place; nobody else may use it
  sqrescue report ledger.db --to report.html  show its pages, trees and log in a browser

Exit status: 0 done, or well formed; 1 damaged; 2 wrong command line; 3 refused.
'sqrescue COMMAND -h' lists the options of a command.";

/// After the options of `check`.
pub(crate) const CHECK: &str = "Examples:
  sqrescue check ledger.db                clean: 5 pages, 2 trees, 5 b-tree, 0 overflow, 0 free
  sqrescue check --deep --json ledger.db  also check what the pages hold, and print an object
  sqrescue check --at 8 ledger.db         check the database as of commit frame 8 of its log

Exit status: 0 well formed; 1 damaged; 2 wrong command line; 3 refused.";

/// After the options of `show`.
pub(crate) const SHOW: &str = "Examples:
  sqrescue show ledger.db            print the fields of the header
  sqrescue show ledger.db --page 3   print a page with its cells and their columns
  sqrescue show ledger.db --log      print each frame or record, and where and why the log ends
  sqrescue show ledger.db --commits  list the commits in the log, for --at

Exit status: 0 done; 1 damaged (only with --pages); 2 wrong command line; 3 refused.";

/// After the options of `rows`.
pub(crate) const ROWS: &str = "Examples:
  sqrescue rows ledger.db --table entry  print a table as comma-separated values
  sqrescue rows ledger.db --json         print all tables, an object per row
  sqrescue rows ledger.db --at 8 --sql   print SQL that recreates the database of commit frame 8

Exit status: 0 done; 1 damaged; 2 wrong command line; 3 refused.";

/// After the options of `diff`.
pub(crate) const DIFF: &str = "Examples:
  sqrescue diff ledger.db                  print changed rows, such as + 5: 5,'Ada',7
  sqrescue diff ledger.db --from 4 --to 8  print the rows that changed between two commits
  sqrescue diff ledger.db --commits        print the rows that each commit changed
  sqrescue diff ledger.db --to 8 --sql     print SQL that turns the rows of the file into those at 8
  sqrescue diff ledger.db --deleted        print which cells of deleted rows went and came

Exit status: 0 done; 1 damaged; 2 wrong command line; 3 refused.";

/// After the options of `salvage`.
pub(crate) const SALVAGE: &str = "Example:
  sqrescue salvage ledger.db --to ledger.sql  then: sqlite3 -safe copy.db < ledger.sql

Exit status: 0 done; 1 done, but the database is damaged; 2 wrong command line; 3 refused.";

/// After the options of `recover`.
pub(crate) const RECOVER: &str = "Examples:
  sqrescue recover ledger.db --to copy.db           look at the result first
  sqrescue recover ledger.db                        then recover the file in place
  sqrescue recover ledger.db --at 8 --to before.db  write the database as of commit frame 8

Exit status: 0 done; 2 wrong command line; 3 refused: nothing was written, except after an
I/O error. Then run it again.";

/// After the options of `report`.
pub(crate) const REPORT: &str = "Examples:
  sqrescue report ledger.db --to report.html            show its pages, trees and log
  sqrescue report ledger.db --to report.html --changes  also show the rows that each commit changed

Exit status: 0 done, also for a damaged database; 2 wrong command line; 3 refused.";

/// What is wrong with options that clap accepts one by one.
pub(crate) const CONTRADICTION: &str = "these options can't be used together";

/// Why `-` is no database file.
pub(crate) const PIPE: &str =
    "a database can't be read from a pipe, because its pages are read in any order and its logs are files. \
     Save it to a file first; ./- is a file named -";
