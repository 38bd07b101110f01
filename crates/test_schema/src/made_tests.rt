//! Texts that tests/schemas makes by rules, and what sqlite3 3.40.1 says of each. `tests/schemas --write` writes them.
use crate::index_tests::{automatic_of, index_of};
use crate::table_tests::described;
use schema_index::read_index;
use schema_text::read_table;
use std::alloc::{AllocError, Global};
use std::test::Fail;

/// Of each table its columns, as table_tests has them, and its automatic indexes, as index_tests.
static TABLES_1: [(&[u8], &[u8], &[u8]); 20] = [
    (
        b"CREATE TABLE t('s' BLOB, \xc3\xa9 a b NOT NULL, b INT NOT NULL, UNIQUE (\xc3\xa9))",
        b"s:BLOB:B;\xc3\xa9:a b:N!;b:INT:I!;",
        b"1 BINARY,;",
    ),
    (
        b"CREATE TABLE\tt('s' REAL\nCHECK\t(1 IN\t(1, 2)), /*,*/ UNIQUE\n('s'\nDESC))",
        b"s:REAL:R;",
        b"0 BINARY DESC,;",
    ),
    (
        b"CREATE TABLE t(\xc3\xa9 a b, UNIQUE (\xc3\xa9 COLLATE binary ASC), UNIQUE (\xc3\xa9 COLLATE nocase))",
        b"\xc3\xa9:a b:N;",
        b"0 binary,;0 nocase,;",
    ),
    (
        b"CREATE TABLE t(asc PRIMARY KEY, key TEXT AS (1), if a b CHECK (1 IN (1, 2)) UNIQUE) WITHOUT ROWID",
        b"asc::B;key:TEXT:T*;if:a b:N;w",
        b"0 BINARY,;2 BINARY,;",
    ),
    (
        b"CREATE TABLE\nt(no \"\", 's'\tDEFAULT w /*,*/ NOT NULL ON CONFLICT FAIL,\nUNIQUE\n((no)))",
        b"no::N;s::B!=w;",
        b"0 BINARY,;",
    ),
    (
        b"CREATE TABLE t(\"q\"\"r\" a b, b INTEGER COLLATE \"nocase\")",
        b"q\"r:a b:N;b:INTEGER:I~nocase;",
        b"",
    ),
    (
        b"CREATE TABLE t(no a b, asc FLOATING POINT NOT NULL)",
        b"no:a b:N;asc:FLOATING POINT:I!;",
        b"",
    ),
    (
        b"CREATE TABLE t(\"q\"\"r\" FLOATING POINT, \xc3\xa9 a b)",
        b"q\"r:FLOATING POINT:I;\xc3\xa9:a b:N;",
        b"",
    ),
    (
        b"CREATE TABLE t('s' INT DEFAULT -2.5 DEFAULT ( abs(-1) ))",
        b"s:INT:I=abs(-1);",
        b"",
    ),
    (
        b"CREATE TABLE t(\xc3\xa9 FLOATING POINT COLLATE \"nocase\", `desc` a b UNIQUE ON CONFLICT FAIL)",
        b"\xc3\xa9:FLOATING POINT:I~nocase;desc:a b:N;",
        b"1 BINARY,;",
    ),
    (
        b"CREATE TABLE t(Left FLOATING POINT NOT NULL, d never_always)",
        b"Left:FLOATING POINT:I!;d:never_always:N;",
        b"",
    ),
    (
        b"CREATE TABLE t(\"q\"\"r\" integer, b TEXT PRIMARY KEY ASC, UNIQUE (b ASC)) WITHOUT ROWID",
        b"q\"r:INTEGER:I;b:TEXT:T;w",
        b"1 BINARY,;",
    ),
    (
        b"CREATE TABLE t(if INTEGER, UNIQUE (if))",
        b"if:INTEGER:I;",
        b"0 BINARY,;",
    ),
    (
        b"CREATE TABLE t(\"q\"\"r\" INTEGER PRIMARY KEY, d BLOB COLLATE \"nocase\") WITHOUT ROWID",
        b"q\"r:INTEGER:I;d:BLOB:B~nocase;w",
        b"0 BINARY,;",
    ),
    (
        b"CREATE TABLE t(if 'int', b FLOATING POINT, \xc3\xa9 GENERATED ALWAYS AS (1) STORED)",
        b"if:INT:I;b:FLOATING POINT:I;\xc3\xa9::B+;",
        b"",
    ),
    (
        b"CREATE TABLE t(c TEXT, PRIMARY KEY (c COLLATE nocase)) strict, without rowid",
        b"c:TEXT:T;ws",
        b"0 nocase,;",
    ),
    (
        b"CREATE TABLE /*,*/ t(no 'int', \xc3\xa9 DOUBLE)",
        b"no:INT:I;\xc3\xa9:DOUBLE:R;",
        b"",
    ),
    (
        b"CREATE TABLE t([x y], key DOUBLE, UNIQUE (key, key ASC), UNIQUE ([x y] DESC))",
        b"x y::B;key:DOUBLE:R;",
        b"1 BINARY,1 BINARY,;0 BINARY DESC,;",
    ),
    (
        b"CREATE TABLE t([x y] never_always, PRIMARY KEY ([x y], [x y] COLLATE \"nocase\")) WITHOUT ROWID",
        b"x y:never_always:N;w",
        b"0 BINARY,0 nocase,;",
    ),
    (
        b"CREATE\tTABLE t(\xc3\xa9 num(5, -2),\nno --)\nREAL REFERENCES x(y) ON --)\nDELETE SET NULL,\ta 'int')",
        b"\xc3\xa9:num(5, -2):N;no:REAL:R;a:INT:I;",
        b"",
    ),
];

static TABLES_2: [(&[u8], &[u8], &[u8]); 20] = [
    (
        b"CREATE TABLE t(asc TEXT CHECK (1 IN (1, 2)), Left 'int', [x y] num(5, -2))",
        b"asc:TEXT:T;Left:INT:I;x y:num(5, -2):N;",
        b"",
    ),
    (
        b"CREATE TABLE t(\"q\"\"r\" 'int' PRIMARY KEY DESC ON CONFLICT FAIL UNIQUE ON CONFLICT FAIL)",
        b"q\"r:INT:I;",
        b"0 BINARY DESC,;",
    ),
    (
        b"CREATE TABLE t(asc, [x y] never_always DEFAULT 1, a ANY DEFAULT 1)",
        b"asc::B;x y:never_always:N=1;a:ANY:N=1;",
        b"",
    ),
    (
        b"CREATE /*,*/ TABLE t(key INT COLLATE\n\"nocase\", asc --)\nVARCHAR(9) DEFAULT\t-2.5)",
        b"key:INT:I~nocase;asc:VARCHAR(9):T=-2.5;",
        b"",
    ),
    (
        b"CREATE TABLE t([x y] VARCHAR(9) COLLATE RTRIM, UNIQUE ([x y]))",
        b"x y:VARCHAR(9):T~RTRIM;",
        b"0 RTRIM,;",
    ),
    (
        b"CREATE TABLE t(`desc` VARCHAR(9), key 'int' REFERENCES x(y) ON DELETE SET NULL DEFAULT \"w\")",
        b"desc:VARCHAR(9):T;key:INT:I=\"w\";",
        b"",
    ),
    (
        b"CREATE TABLE t(Left \"\" PRIMARY KEY ASC, UNIQUE (Left DESC))",
        b"Left::N;",
        b"0 BINARY,;",
    ),
    (
        b"CREATE TABLE t(\"q\"\"r\" never_always COLLATE RTRIM, d \"\" NOT NULL, b num(5, -2) DEFAULT (1 + 2))",
        b"q\"r:never_always:N~RTRIM;d::N!;b:num(5, -2):N=1 + 2;",
        b"",
    ),
    (
        b"CREATE TABLE t(c TEXT DEFAULT 0x1F, b DOUBLE, asc 'int' CHECK (1 IN (1, 2)) AS (1) STORED)",
        b"c:TEXT:T=0x1F;b:DOUBLE:R;asc:INT:I+;",
        b"",
    ),
    (
        b"CREATE TABLE t(if num(5, -2), `desc` REAL NOT NULL)",
        b"if:num(5, -2):N;desc:REAL:R!;",
        b"",
    ),
    (
        b"CREATE TABLE t(no VARCHAR(9) PRIMARY KEY DESC NOT NULL)",
        b"no:VARCHAR(9):T!;",
        b"0 BINARY DESC,;",
    ),
    (
        b"CREATE TABLE t(b\tDOUBLE,\tUNIQUE --)\n(b), CONSTRAINT /*,*/ n PRIMARY KEY\t(b))",
        b"b:DOUBLE:R;",
        b"0 BINARY,;",
    ),
    (
        b"CREATE\tTABLE\tt(\"q\"\"r\"\tnum(5, -2))",
        b"q\"r:num(5, -2):N;",
        b"",
    ),
    (
        b"CREATE TABLE --)\nt(\"q\"\"r\"\nDOUBLE)",
        b"q\"r:DOUBLE:R;",
        b"",
    ),
    (
        b"CREATE TABLE t(\xc3\xa9 DOUBLE NOT NULL UNIQUE, asc INT, 's' num(5, -2))",
        b"\xc3\xa9:DOUBLE:R!;asc:INT:I;s:num(5, -2):N;",
        b"0 BINARY,;",
    ),
    (
        b"CREATE TABLE t('s' ANY PRIMARY KEY DESC) WITHOUT ROWID",
        b"s:ANY:N;w",
        b"0 BINARY DESC,;",
    ),
    (
        b"CREATE TABLE t(\"q\"\"r\" DOUBLE COLLATE nocase, if BLOB, c REAL)",
        b"q\"r:DOUBLE:R~nocase;if:BLOB:B;c:REAL:R;",
        b"",
    ),
    (
        b"CREATE TABLE t(\xc3\xa9 PRIMARY KEY ASC COLLATE \"nocase\", `desc` INT)",
        b"\xc3\xa9::B~nocase;desc:INT:I;",
        b"0 nocase,;",
    ),
    (b"CREATE TABLE t(Left TEXT) STRICT", b"Left:TEXT:T;s", b""),
    (
        b"CREATE\nTABLE\tt(\"q\"\"r\" --)\nBLOB, --)\nLeft\tINTEGER)",
        b"q\"r:BLOB:B;Left:INTEGER:I;",
        b"",
    ),
];

static TABLES_3: [(&[u8], &[u8], &[u8]); 20] = [
    (
        b"CREATE TABLE /*,*/ t(c BLOB, --)\nCONSTRAINT n /*,*/ UNIQUE (c DESC, --)\nc --)\nDESC))",
        b"c:BLOB:B;",
        b"0 BINARY DESC,0 BINARY DESC,;",
    ),
    (
        b"CREATE TABLE t([x y] VARCHAR(9) REFERENCES x(y) ON DELETE SET NULL, b num(5, -2), no ANY UNIQUE)",
        b"x y:VARCHAR(9):T;b:num(5, -2):N;no:ANY:N;",
        b"2 BINARY,;",
    ),
    (
        b"CREATE TABLE t(\xc3\xa9 TEXT, PRIMARY KEY (\xc3\xa9)) strict, without rowid",
        b"\xc3\xa9:TEXT:T;ws",
        b"0 BINARY,;",
    ),
    (
        b"CREATE /*,*/ TABLE t(asc INTEGER UNIQUE, Left INT)\nSTRICT",
        b"asc:INTEGER:I;Left:INT:I;s",
        b"0 BINARY,;",
    ),
    (
        b"CREATE\tTABLE --)\nt(c\tANY\nPRIMARY /*,*/ KEY ON CONFLICT\tFAIL)",
        b"c:ANY:N;",
        b"0 BINARY,;",
    ),
    (
        b"CREATE TABLE t(a TEXT, [x y] integer, asc ANY)",
        b"a:TEXT:T;x y:INTEGER:I;asc:ANY:N;",
        b"",
    ),
    (
        b"CREATE --)\nTABLE\nt(c INTEGER UNIQUE\nON --)\nCONFLICT --)\nFAIL)",
        b"c:INTEGER:I;",
        b"0 BINARY,;",
    ),
    (
        b"CREATE TABLE t(asc ANY, no 'int')",
        b"asc:ANY:N;no:INT:I;",
        b"",
    ),
    (
        b"CREATE TABLE t(b integer, \xc3\xa9 CHECK (1 IN (1, 2)) UNIQUE)",
        b"b:INTEGER:I;\xc3\xa9::B;",
        b"1 BINARY,;",
    ),
    (
        b"CREATE TABLE t(\xc3\xa9 INTEGER NOT NULL, asc FLOATING POINT UNIQUE NOT NULL ON CONFLICT FAIL)",
        b"\xc3\xa9:INTEGER:I!;asc:FLOATING POINT:I!;",
        b"1 BINARY,;",
    ),
    (
        b"CREATE TABLE t(d \"\" PRIMARY KEY DESC, c INT CHECK (1 IN (1, 2)) GENERATED ALWAYS AS (1))",
        b"d::N;c:INT:I*;",
        b"0 BINARY DESC,;",
    ),
    (
        b"CREATE TABLE t(d INT, [x y] a b, a INTEGER, UNIQUE ([x y], [x y]), UNIQUE (a, [x y] ASC))",
        b"d:INT:I;x y:a b:N;a:INTEGER:I;",
        b"1 BINARY,1 BINARY,;2 BINARY,1 BINARY,;",
    ),
    (
        b"CREATE TABLE t(no TEXT, UNIQUE (no COLLATE binary ASC))",
        b"no:TEXT:T;",
        b"0 binary,;",
    ),
    (
        b"CREATE TABLE t(key BLOB PRIMARY KEY DESC, a INT CHECK (1 IN (1, 2)), CONSTRAINT n UNIQUE (key ASC))",
        b"key:BLOB:B;a:INT:I;",
        b"0 BINARY DESC,;",
    ),
    (
        b"CREATE TABLE t(\xc3\xa9 INTEGER NOT NULL, `desc` BLOB)",
        b"\xc3\xa9:INTEGER:I!;desc:BLOB:B;",
        b"",
    ),
    (
        b"CREATE TABLE t(c FLOATING POINT UNIQUE CHECK (1 IN (1, 2)), a, [x y] REAL)",
        b"c:FLOATING POINT:I;a::B;x y:REAL:R;",
        b"0 BINARY,;",
    ),
    (b"CREATE TABLE t(no num(5, -2))", b"no:num(5, -2):N;", b""),
    (
        b"CREATE TABLE t(b num(5, -2), \xc3\xa9 'int' COLLATE binary, a TEXT COLLATE nocase UNIQUE)",
        b"b:num(5, -2):N;\xc3\xa9:INT:I~binary;a:TEXT:T~nocase;",
        b"2 nocase,;",
    ),
    (
        b"CREATE TABLE t(\xc3\xa9 a b REFERENCES x(y) ON DELETE SET NULL, b REAL UNIQUE UNIQUE)",
        b"\xc3\xa9:a b:N;b:REAL:R;",
        b"1 BINARY,;",
    ),
    (
        b"CREATE TABLE t(b FLOATING POINT)",
        b"b:FLOATING POINT:I;",
        b"",
    ),
];

static TABLES_4: [(&[u8], &[u8], &[u8]); 20] = [
    (
        b"CREATE TABLE t(\xc3\xa9 a b AS (1) STORED, Left REAL CHECK (1 IN (1, 2)))",
        b"\xc3\xa9:a b:N+;Left:REAL:R;",
        b"",
    ),
    (
        b"CREATE TABLE t('s' VARCHAR(9) DEFAULT x'0f' PRIMARY KEY DESC, UNIQUE ('s'))",
        b"s:VARCHAR(9):T=x'0f';",
        b"0 BINARY DESC,;",
    ),
    (
        b"CREATE TABLE t(b a b COLLATE \"nocase\", \"q\"\"r\" TEXT COLLATE nocase)",
        b"b:a b:N~nocase;q\"r:TEXT:T~nocase;",
        b"",
    ),
    (
        b"CREATE TABLE t(a integer COLLATE \"nocase\") STRICT",
        b"a:INTEGER:I~nocase;s",
        b"",
    ),
    (
        b"CREATE TABLE t(no BLOB, \xc3\xa9 DOUBLE, a VARCHAR(9) DEFAULT ( abs(-1) ))",
        b"no:BLOB:B;\xc3\xa9:DOUBLE:R;a:VARCHAR(9):T=abs(-1);",
        b"",
    ),
    (
        b"CREATE TABLE\tt([x y]\tREFERENCES x(y) /*,*/ ON DELETE SET NULL UNIQUE,\na 'int',\tUNIQUE\n(a\tDESC))",
        b"x y::B;a:INT:I;",
        b"0 BINARY,;1 BINARY DESC,;",
    ),
    (
        b"CREATE TABLE t(if DOUBLE UNIQUE, b INTEGER DEFAULT NULL CHECK (1 IN (1, 2)))",
        b"if:DOUBLE:R;b:INTEGER:I=NULL;",
        b"0 BINARY,;",
    ),
    (
        b"CREATE TABLE t(no BLOB, d integer UNIQUE UNIQUE, UNIQUE (no ASC), CONSTRAINT n UNIQUE ((no) ASC))",
        b"no:BLOB:B;d:INTEGER:I;",
        b"1 BINARY,;0 BINARY,;",
    ),
    (
        b"CREATE TABLE t(\"q\"\"r\" INT, if VARCHAR(9), a TEXT, PRIMARY KEY (a, a DESC), UNIQUE (\"q\"\"r\"))",
        b"q\"r:INT:I;if:VARCHAR(9):T;a:TEXT:T;",
        b"2 BINARY,2 BINARY DESC,;0 BINARY,;",
    ),
    (
        b"CREATE TABLE t(\xc3\xa9 never_always PRIMARY KEY DESC CHECK (1 IN (1, 2)), [x y] num(5, -2))",
        b"\xc3\xa9:never_always:N;x y:num(5, -2):N;",
        b"0 BINARY DESC,;",
    ),
    (
        b"CREATE TABLE t(b REAL, \"q\"\"r\" DOUBLE)",
        b"b:REAL:R;q\"r:DOUBLE:R;",
        b"",
    ),
    (
        b"CREATE TABLE t(\xc3\xa9 INT, asc NOT NULL ON CONFLICT FAIL)",
        b"\xc3\xa9:INT:I;asc::B!;",
        b"",
    ),
    (
        b"CREATE TABLE t([x y] 'int', UNIQUE ([x y] DESC))",
        b"x y:INT:I;",
        b"0 BINARY DESC,;",
    ),
    (
        b"CREATE TABLE t(d \"\" NOT NULL ON CONFLICT FAIL COLLATE nocase, if \"\")",
        b"d::N!~nocase;if::N;",
        b"",
    ),
    (
        b"CREATE TABLE t(a REAL CHECK (1 IN (1, 2)), key ANY CHECK (1 IN (1, 2)))",
        b"a:REAL:R;key:ANY:N;",
        b"",
    ),
    (
        b"CREATE TABLE t(no 'int' COLLATE \"nocase\") STRICT",
        b"no:INT:I~nocase;s",
        b"",
    ),
    (
        b"CREATE TABLE t(a BLOB, \"q\"\"r\" a b)",
        b"a:BLOB:B;q\"r:a b:N;",
        b"",
    ),
    (
        b"CREATE TABLE t(\"q\"\"r\" num(5, -2) PRIMARY KEY DESC DEFAULT current_date)",
        b"q\"r:num(5, -2):N=current_date;",
        b"0 BINARY DESC,;",
    ),
    (
        b"CREATE TABLE t(Left a b, \"q\"\"r\" INT CHECK (1 IN (1, 2)))",
        b"Left:a b:N;q\"r:INT:I;",
        b"",
    ),
    (
        b"CREATE TABLE t(\"q\"\"r\", b a b COLLATE \"nocase\", CONSTRAINT n UNIQUE (\"q\"\"r\"))",
        b"q\"r::B;b:a b:N~nocase;",
        b"0 BINARY,;",
    ),
];

/// Of each index its terms, as index_tests has them.
static INDEXES_1: [(&[u8], &[u8]); 20] = [
    (
        b"CREATE --)\nINDEX /*,*/ i\nON\tt(a)\nWHERE a\tIS NOT NULL",
        b"t:a BINARY,w",
    ),
    (
        b"CREATE INDEX i ON t(a DESC, [desc] ASC)",
        b"t:a BINARY DESC,desc BINARY,",
    ),
    (
        b"CREATE UNIQUE INDEX i ON t(- desc ASC)",
        b"t:(expression),u",
    ),
    (
        b"CREATE INDEX i ON t(CASE WHEN a THEN b END ASC, desc)",
        b"t:(expression),desc BINARY,",
    ),
    (
        b"CREATE UNIQUE INDEX i ON t(([desc]) ASC)",
        b"t:desc BINARY,u",
    ),
    (
        b"CREATE INDEX i ON t(b, lower(a) ASC)",
        b"t:b BINARY,(expression),",
    ),
    (
        b"CREATE UNIQUE INDEX\ni /*,*/ ON\nt(a IN (1, b), /*,*/ b\nDESC,\n\"A\")",
        b"t:(expression),b BINARY DESC,a BINARY,u",
    ),
    (
        b"CREATE UNIQUE INDEX /*,*/ i\tON t([desc]) WHERE --)\na /*,*/ IS /*,*/ NOT\nNULL",
        b"t:desc BINARY,uw",
    ),
    (
        b"CREATE UNIQUE INDEX i ON t(a COLLATE \"nocase\" ASC, (a) COLLATE binary ASC)",
        b"t:a nocase,a binary,u",
    ),
    (
        b"CREATE UNIQUE INDEX i ON t(a IN (1, b) ASC, (a) = (b COLLATE nocase) ASC, ('b') COLLATE RTRIM)",
        b"t:(expression),(expression),b RTRIM,u",
    ),
    (
        b"CREATE INDEX i ON t(- desc DESC, (('b')) DESC)",
        b"t:(expression) DESC,b BINARY DESC,",
    ),
    (
        b"CREATE INDEX\ni --)\nON\tt(lower(a) ASC, /*,*/ ('b') DESC)",
        b"t:(expression),b BINARY DESC,",
    ),
    (
        b"CREATE INDEX i ON t(('b')) WHERE a IS NOT NULL",
        b"t:b BINARY,w",
    ),
    (
        b"CREATE INDEX i ON t([desc] DESC, (\"A\"))",
        b"t:desc BINARY DESC,a BINARY,",
    ),
    (b"CREATE INDEX i ON t(c DESC)", b"t:c BINARY DESC,"),
    (
        b"CREATE UNIQUE INDEX i ON t(desc, \"A\")",
        b"t:desc BINARY,a BINARY,u",
    ),
    (
        b"CREATE UNIQUE INDEX i ON t((c) ASC, b)",
        b"t:c BINARY,b BINARY,u",
    ),
    (
        b"CREATE INDEX i ON t(\"A\", lower(a), c DESC)",
        b"t:a BINARY,(expression),c BINARY DESC,",
    ),
    (
        b"CREATE --)\nINDEX i --)\nON t(a || 'x,y' /*,*/ ASC, --)\na || 'x,y', b\nDESC)",
        b"t:(expression),(expression),b BINARY DESC,",
    ),
    (
        b"CREATE\nINDEX\ni ON t((b)) --)\nWHERE\ta IS NOT\nNULL",
        b"t:b BINARY,w",
    ),
];

static INDEXES_2: [(&[u8], &[u8]); 20] = [
    (
        b"CREATE UNIQUE INDEX i ON t(\"A\", - desc DESC)",
        b"t:a BINARY,(expression) DESC,u",
    ),
    (
        b"CREATE UNIQUE INDEX i ON t(a IS NOT NULL DESC)",
        b"t:(expression) DESC,u",
    ),
    (
        b"CREATE UNIQUE INDEX i ON t(\"A\" ASC, b COLLATE RTRIM)",
        b"t:a BINARY,b RTRIM,u",
    ),
    (
        b"CREATE UNIQUE INDEX i ON t(a IS NOT NULL DESC, ('b') DESC, b ASC) WHERE a IS NOT NULL",
        b"t:(expression) DESC,b BINARY DESC,b BINARY,uw",
    ),
    (
        b"CREATE UNIQUE INDEX i ON t(('b')) WHERE a IS NOT NULL",
        b"t:b BINARY,uw",
    ),
    (b"CREATE INDEX i ON t(lower(a))", b"t:(expression),"),
    (b"CREATE INDEX i ON t(b DESC)", b"t:b BINARY DESC,"),
    (
        b"CREATE UNIQUE /*,*/ INDEX\ni ON t(\"A\" COLLATE\tbinary,\tc\tDESC)",
        b"t:a binary,c BINARY DESC,u",
    ),
    (
        b"CREATE INDEX i ON t(\"A\", lower(a)\nDESC)",
        b"t:a BINARY,(expression) DESC,",
    ),
    (b"CREATE UNIQUE INDEX i ON t(a + b)", b"t:(expression),u"),
    (
        b"CREATE INDEX i ON t(b ASC) WHERE a IS NOT NULL",
        b"t:b BINARY,w",
    ),
    (b"CREATE UNIQUE INDEX i ON t(c DESC)", b"t:c BINARY DESC,u"),
    (
        b"CREATE\tUNIQUE INDEX i ON /*,*/ t((\"A\"), ([desc])) /*,*/ WHERE --)\na IS NOT --)\nNULL",
        b"t:a BINARY,desc BINARY,uw",
    ),
    (
        b"CREATE INDEX i ON t((\"A\") ASC, b DESC, a || 'x,y' ASC) WHERE a IS NOT NULL",
        b"t:a BINARY,b BINARY DESC,(expression),w",
    ),
    (
        b"CREATE INDEX\ti ON t(c DESC, a)",
        b"t:c BINARY DESC,a BINARY,",
    ),
    (
        b"CREATE INDEX i ON t([desc] DESC, a ASC, [desc])",
        b"t:desc BINARY DESC,a BINARY,desc BINARY,",
    ),
    (
        b"CREATE UNIQUE INDEX i ON t((('b')), c, a IN (1, b) DESC) WHERE a IS NOT NULL",
        b"t:b BINARY,c BINARY,(expression) DESC,uw",
    ),
    (
        b"CREATE INDEX i ON t(\"A\" DESC, a IS NOT NULL DESC)",
        b"t:a BINARY DESC,(expression) DESC,",
    ),
    (
        b"CREATE INDEX i ON t(cast(a AS TEXT), a + b DESC, a COLLATE nocase)",
        b"t:(expression),(expression) DESC,a nocase,",
    ),
    (
        b"CREATE UNIQUE\nINDEX i ON t(b /*,*/ DESC, b)",
        b"t:b BINARY DESC,b BINARY,u",
    ),
];

static INDEXES_3: [(&[u8], &[u8]); 10] = [
    (
        b"CREATE INDEX i ON t(\"A\", a + b) WHERE a IS NOT NULL",
        b"t:a BINARY,(expression),w",
    ),
    (
        b"CREATE INDEX i ON t((a) = (b COLLATE nocase) ASC, c DESC, a ASC) WHERE a IS NOT NULL",
        b"t:(expression),c BINARY DESC,a BINARY,w",
    ),
    (
        b"CREATE INDEX i ON t(lower(a) ASC, desc DESC)",
        b"t:(expression),desc BINARY DESC,",
    ),
    (
        b"CREATE UNIQUE INDEX i ON t(('b') DESC, desc)",
        b"t:b BINARY DESC,desc BINARY,u",
    ),
    (
        b"CREATE UNIQUE INDEX i ON t((desc) --)\nDESC,\t[desc])",
        b"t:desc BINARY DESC,desc BINARY,u",
    ),
    (
        b"CREATE INDEX i\tON t(desc --)\nASC) WHERE a\nIS\tNOT --)\nNULL",
        b"t:desc BINARY,w",
    ),
    (b"CREATE INDEX i ON t(('b') DESC)", b"t:b BINARY DESC,"),
    (
        b"CREATE UNIQUE --)\nINDEX /*,*/ i ON t(a /*,*/ IS /*,*/ NOT NULL)",
        b"t:(expression),u",
    ),
    (
        b"CREATE UNIQUE INDEX i ON t(a IN (1, b) ASC, CASE WHEN a THEN b END ASC, (('b')) COLLATE nocase)",
        b"t:(expression),(expression),b nocase,u",
    ),
    (
        b"CREATE UNIQUE INDEX i ON t(('b'), lower(a) ASC)",
        b"t:b BINARY,(expression),u",
    ),
];

/// The texts of which sqlite3 says something else, each with a line's end behind it.
fn other_tables(alloc: Global, tables: &[(&[u8], &[u8], &[u8])]) -> Result<Vec<u8>, AllocError> {
    let mut others = Vec::new(alloc);
    for (text, columns, indexes) in tables.iter() {
        let is_same = match read_table(alloc, text)? {
            Some(table) => {
                let found = described(alloc, text, &table)?;
                let keys = automatic_of(alloc, text, &table)?;
                found.as_slice() == *columns && keys.as_slice() == *indexes
            }
            None => false,
        };
        if !is_same {
            others.extend_from_slice(text)?;
            others.push(b'\n')?;
        }
    }
    Ok(others)
}

/// As other_tables has it, of indexes.
fn other_indexes(alloc: Global, indexes: &[(&[u8], &[u8])]) -> Result<Vec<u8>, AllocError> {
    let mut others = Vec::new(alloc);
    for (text, terms) in indexes.iter() {
        let is_same = match read_index(alloc, text)? {
            Some(index) => index_of(alloc, text, &index)?.as_slice() == *terms,
            None => false,
        };
        if !is_same {
            others.extend_from_slice(text)?;
            others.push(b'\n')?;
        }
    }
    Ok(others)
}

#[test]
fn made_tables_are_read_as_sqlite_reads_them(rt: HostRuntime) -> Result<(), Fail> {
    for tables in [&TABLES_1[..], &TABLES_2[..], &TABLES_3[..], &TABLES_4[..]] {
        let others = other_tables(rt.alloc(), tables)?;
        assert_eq!(rt; others.as_slice(), b"".as_slice());
    }
    Ok(())
}

#[test]
fn made_indexes_are_read_as_sqlite_reads_them(rt: HostRuntime) -> Result<(), Fail> {
    for indexes in [&INDEXES_1[..], &INDEXES_2[..], &INDEXES_3[..]] {
        let others = other_indexes(rt.alloc(), indexes)?;
        assert_eq!(rt; others.as_slice(), b"".as_slice());
    }
    Ok(())
}
