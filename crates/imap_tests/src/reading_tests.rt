//! Commands and what they mean, worked out by hand from RFC 3501, section 9.
//! Allocates.
use crate::spelling::Spelling;
use arch_base::{Bytes, NoMemory};
use std::alloc::Global;
use std::test::Fail;

/// A command, and its meaning as `Spelling` writes it: words and numbers after spaces, texts in angle
/// brackets, a set as the two ends of each range.
type Meaning = (&'static [u8], &'static [u8]);

/// Commands without messages.
static COMMANDS: [Meaning; 47] = [
    (b"a CAPABILITY\r\n", b"CAPABILITY <a>"),
    (b"a NOOP\r\n", b"NOOP <a>"),
    (b"a NOOP\n", b"NOOP <a>"),
    (b"a noop\r\n", b"NOOP <a>"),
    (b"a nOoP\r\n", b"NOOP <a>"),
    (b"A.1]}[~'!# LOGOUT\r\n", b"LOGOUT <A.1]}[~'!#>"),
    (b"0 CHECK\r\n", b"CHECK <0>"),
    (b"a CLOSE\r\n", b"CLOSE <a>"),
    (b"a EXPUNGE\r\n", b"EXPUNGE <a>"),
    (b"a IDLE\r\n", b"IDLE <a>"),
    (b"a LOGIN smith sesame\r\n", b"LOGIN <a> <smith> <sesame>"),
    (b"a LOGIN \"smith\" \"\"\r\n", b"LOGIN <a> <smith> <>"),
    (b"a LOGIN \"s\\\"m\\\\i\" x\r\n", b"LOGIN <a> <s\"m\\i> <x>"),
    (b"a LOGIN \"a\\\"\" \"b\"\r\n", b"LOGIN <a> <a\"> <b>"),
    (b"a LOGIN {1}\r\nx {1}\r\ny\r\n", b"LOGIN <a> <x> <y>"),
    (b"a LOGIN {1}\nx \"y\"\n", b"LOGIN <a> <x> <y>"),
    (
        b"a LOGIN {0}\r\n {3}\r\n\r\n\"\r\n",
        b"LOGIN <a> <> <\r\n\">",
    ),
    (
        b"a LOGIN {002}\r\n\xc3\xa9 x]y\r\n",
        b"LOGIN <a> <\xc3\xa9> <x]y>",
    ),
    (b"a LOGIN x {2}\r\ny\r\n", b"LOGIN <a> <x> <y\r>"),
    (b"a LOGIN NIL nil\r\n", b"LOGIN <a> <NIL> <nil>"),
    (b"a LOGIN a}b +c\r\n", b"LOGIN <a> <a}b> <+c>"),
    (
        b"a LOGIN \"\t\x7f\" \"(){%*]\"\r\n",
        b"LOGIN <a> <\t\x7f> <(){%*]>",
    ),
    (b"a AUTHENTICATE PLAIN\r\n", b"AUTHENTICATE <a> <PLAIN>"),
    (b"a authenticate x-Y[\r\n", b"AUTHENTICATE <a> <x-Y[>"),
    (b"a SELECT INBOX\r\n", b"SELECT <a> <INBOX>"),
    (b"a SELECT \"my list.3\"\r\n", b"SELECT <a> <my list.3>"),
    (b"a SELECT {5}\r\nlist\"\r\n", b"SELECT <a> <list\">"),
    (b"a EXAMINE list.0\r\n", b"EXAMINE <a> <list.0>"),
    (b"a CREATE x\r\n", b"CREATE <a> <x>"),
    (b"a DELETE x\r\n", b"DELETE <a> <x>"),
    (b"a SUBSCRIBE x\r\n", b"SUBSCRIBE <a> <x>"),
    (b"a UNSUBSCRIBE \"\"\r\n", b"UNSUBSCRIBE <a> <>"),
    (b"a RENAME x y\r\n", b"RENAME <a> <x> <y>"),
    (b"a LIST \"\" *\r\n", b"LIST <a> <> <*>"),
    (b"a LIST \"\" \"\"\r\n", b"LIST <a> <> <>"),
    (b"a LIST ~x a%b*]\r\n", b"LIST <a> <~x> <a%b*]>"),
    (b"a LSUB \"\" {1}\r\n%\r\n", b"LSUB <a> <> <%>"),
    (b"a STATUS x (MESSAGES)\r\n", b"STATUS <a> <x> MESSAGES"),
    (
        b"a STATUS \"x\" (messages RECENT UidNext UIDVALIDITY UNSEEN)\r\n",
        b"STATUS <a> <x> MESSAGES RECENT UIDNEXT UIDVALIDITY UNSEEN",
    ),
    (
        b"a STATUS x (UNSEEN UNSEEN)\r\n",
        b"STATUS <a> <x> UNSEEN UNSEEN",
    ),
    (b"a APPEND x {2}\r\nhi\r\n", b"APPEND <a> <x> - - <hi>"),
    (b"a APPEND x () {0}\r\n\r\n", b"APPEND <a> <x> ( ) - <>"),
    (
        b"a APPEND x (\\Seen $Forwarded) {1}\n\n\n",
        b"APPEND <a> <x> ( <\\Seen> <$Forwarded> ) - <\n>",
    ),
    (
        b"a APPEND x \" 7-Feb-1994 21:52:25 -0800\" {1}\r\nm\r\n",
        b"APPEND <a> <x> - 1994 2 7 21 52 25 WEST 800 <m>",
    ),
    (
        b"a APPEND x (\\Draft) \"31-dec-2024 00:00:00 +0130\" {1}\r\nm\r\n",
        b"APPEND <a> <x> ( <\\Draft> ) 2024 12 31 0 0 0 EAST 130 <m>",
    ),
    (b"a UID COPY 1 x\r\n", b"UID COPY <a> 1: 1 <x>"),
    (
        b"a COPY 1,5:2,*:3 \"x y\"\r\n",
        b"COPY <a> 1: 1 5: 2 *: 3 <x y>",
    ),
];

/// Commands that fetch or store.
static FETCHES: [Meaning; 47] = [
    (b"a FETCH 1 FLAGS\r\n", b"FETCH <a> 1: 1 FLAGS"),
    (
        b"a FETCH 4294967295 UID\r\n",
        b"FETCH <a> 4294967295: 4294967295 UID",
    ),
    (b"a FETCH *:1 (UID)\r\n", b"FETCH <a> *: 1 UID"),
    (b"a FETCH * (UID UID)\r\n", b"FETCH <a> *: * UID UID"),
    (
        b"a fetch 2:* (flags InternalDate RFC822.SIZE)\r\n",
        b"FETCH <a> 2: * FLAGS INTERNALDATE SIZE",
    ),
    (
        b"a FETCH 1 ALL\r\n",
        b"FETCH <a> 1: 1 FLAGS INTERNALDATE SIZE ENVELOPE",
    ),
    (
        b"a FETCH 1 FAST\r\n",
        b"FETCH <a> 1: 1 FLAGS INTERNALDATE SIZE",
    ),
    (
        b"a FETCH 1 full\r\n",
        b"FETCH <a> 1: 1 FLAGS INTERNALDATE SIZE ENVELOPE BODY",
    ),
    (b"a FETCH 1 ENVELOPE\r\n", b"FETCH <a> 1: 1 ENVELOPE"),
    (b"a FETCH 1 BODY\r\n", b"FETCH <a> 1: 1 BODY"),
    (
        b"a FETCH 1 (BODY BODYSTRUCTURE)\r\n",
        b"FETCH <a> 1: 1 BODY BODYSTRUCTURE",
    ),
    (b"a FETCH 1 RFC822\r\n", b"FETCH <a> 1: 1 RFC822"),
    (
        b"a FETCH 1 (RFC822.HEADER RFC822.TEXT)\r\n",
        b"FETCH <a> 1: 1 RFC822.HEADER RFC822.TEXT",
    ),
    (b"a FETCH 1 BODY[]\r\n", b"FETCH <a> 1: 1 [ WHOLE ]"),
    (b"a FETCH 1 BODY.PEEK[]\r\n", b"FETCH <a> 1: 1 [ WHOLE ]"),
    (
        b"a FETCH 1 body.peek[header]\r\n",
        b"FETCH <a> 1: 1 [ HEADER ]",
    ),
    (b"a FETCH 1 BODY[TEXT]\r\n", b"FETCH <a> 1: 1 [ TEXT ]"),
    (b"a FETCH 1 BODY[1]\r\n", b"FETCH <a> 1: 1 [ 1 WHOLE ]"),
    (
        b"a FETCH 1 BODY[1.2.30]\r\n",
        b"FETCH <a> 1: 1 [ 1 2 30 WHOLE ]",
    ),
    (
        b"a FETCH 1 BODY[4294967295]\r\n",
        b"FETCH <a> 1: 1 [ 4294967295 WHOLE ]",
    ),
    (b"a FETCH 1 BODY[1.MIME]\r\n", b"FETCH <a> 1: 1 [ 1 MIME ]"),
    (
        b"a FETCH 1 BODY[4.1.HEADER]\r\n",
        b"FETCH <a> 1: 1 [ 4 1 HEADER ]",
    ),
    (b"a FETCH 1 BODY[2.TEXT]\r\n", b"FETCH <a> 1: 1 [ 2 TEXT ]"),
    (
        b"a FETCH 1 BODY[HEADER.FIELDS (From)]\r\n",
        b"FETCH <a> 1: 1 [ FIELDS <From> ]",
    ),
    (
        b"a FETCH 1 BODY[HEADER.FIELDS.NOT (\"From\" {2}\r\nTo]]\r\n)]\r\n",
        b"BAD <a>",
    ),
    (
        b"a FETCH 1 BODY[header.fields.not (\"From\" {2}\r\nTo x]y)]\r\n",
        b"FETCH <a> 1: 1 [ NOT-FIELDS <From> <To> <x]y> ]",
    ),
    (
        b"a FETCH 1 BODY[3.HEADER.FIELDS (a b)]<0.10>\r\n",
        b"FETCH <a> 1: 1 [ 3 FIELDS <a> <b> ] AT 0 10",
    ),
    (
        b"a FETCH 1 BODY[]<007.1>\r\n",
        b"FETCH <a> 1: 1 [ WHOLE ] AT 7 1",
    ),
    (
        b"a FETCH 1 BODY[]<4294967295.4294967295>\r\n",
        b"FETCH <a> 1: 1 [ WHOLE ] AT 4294967295 4294967295",
    ),
    (
        b"a FETCH 1 (BODY[]<0.1> BODY[2] UID)\r\n",
        b"FETCH <a> 1: 1 [ WHOLE ] AT 0 1 [ 2 WHOLE ] UID",
    ),
    (b"a UID FETCH 5 (BODY)\r\n", b"UID FETCH <a> 5: 5 BODY"),
    (
        b"a uid fetch 1:5,7 flags\r\n",
        b"UID FETCH <a> 1: 5 7: 7 FLAGS",
    ),
    (
        b"a UID FETCH 1 ALL\r\n",
        b"UID FETCH <a> 1: 1 FLAGS INTERNALDATE SIZE ENVELOPE",
    ),
    (
        b"a STORE 1 FLAGS (\\Seen)\r\n",
        b"STORE <a> 1: 1 REPLACE <\\Seen>",
    ),
    (
        b"a STORE 1 +FLAGS (\\Seen \\Deleted)\r\n",
        b"STORE <a> 1: 1 ADD <\\Seen> <\\Deleted>",
    ),
    (
        b"a STORE 1 -flags.silent x\r\n",
        b"STORE <a> 1: 1 REMOVE SILENT <x>",
    ),
    (
        b"a STORE 1:* FLAGS.SILENT ()\r\n",
        b"STORE <a> 1: * REPLACE SILENT",
    ),
    (
        b"a STORE 1 FLAGS \\Seen x \\y\r\n",
        b"STORE <a> 1: 1 REPLACE <\\Seen> <x> <\\y>",
    ),
    (
        b"a STORE 1 FLAGS Recent\r\n",
        b"STORE <a> 1: 1 REPLACE <Recent>",
    ),
    (
        b"a UID STORE 3 +FLAGS (a)\r\n",
        b"UID STORE <a> 3: 3 ADD <a>",
    ),
    (b"a STORE 1 FLAGS (\\Recent)\r\n", b"BAD <a>"),
    (b"a STORE 1 FLAGS \\rECENT\r\n", b"BAD <a>"),
    (
        b"a STORE 1 FLAGS \\RecentX\r\n",
        b"STORE <a> 1: 1 REPLACE <\\RecentX>",
    ),
    (b"a STORE 1 FLAGS\r\n", b"BAD <a>"),
    (b"a STORE 1 *FLAGS x\r\n", b"BAD <a>"),
    (b"a STORE 1 FLAGS x (y)\r\n", b"BAD <a>"),
    (b"a UID EXPUNGE 1\r\n", b"BAD <a>"),
];

/// Commands that search.
static SEARCHES: [Meaning; 48] = [
    (b"a SEARCH ALL\r\n", b"SEARCH <a> ALL"),
    (
        b"a search answered deleted draft\r\n",
        b"SEARCH <a> ANSWERED DELETED DRAFT",
    ),
    (
        b"a SEARCH FLAGGED NEW OLD RECENT SEEN\r\n",
        b"SEARCH <a> FLAGGED NEW OLD RECENT SEEN",
    ),
    (
        b"a SEARCH UNANSWERED UNDELETED\r\n",
        b"SEARCH <a> UNANSWERED UNDELETED",
    ),
    (
        b"a SEARCH UNDRAFT UNFLAGGED UNSEEN\r\n",
        b"SEARCH <a> UNDRAFT UNFLAGGED UNSEEN",
    ),
    (
        b"a SEARCH BCC x BODY \"y z\"\r\n",
        b"SEARCH <a> BCC <x> BODY <y z>",
    ),
    (
        b"a SEARCH CC x FROM {1}\r\ny\r\n",
        b"SEARCH <a> CC <x> FROM <y>",
    ),
    (
        b"a SEARCH SUBJECT x TEXT y TO z\r\n",
        b"SEARCH <a> SUBJECT <x> TEXT <y> TO <z>",
    ),
    (
        b"a SEARCH HEADER List-Id \"\"\r\n",
        b"SEARCH <a> HEADER <List-Id> <>",
    ),
    (
        b"a SEARCH KEYWORD x UNKEYWORD $y\r\n",
        b"SEARCH <a> KEYWORD <x> UNKEYWORD <$y>",
    ),
    (
        b"a SEARCH BEFORE 1-Feb-1994\r\n",
        b"SEARCH <a> BEFORE 1994 2 1",
    ),
    (b"a SEARCH ON 01-feb-1994\r\n", b"SEARCH <a> ON 1994 2 1"),
    (
        b"a SEARCH SINCE \"31-DEC-9999\"\r\n",
        b"SEARCH <a> SINCE 9999 12 31",
    ),
    (
        b"a SEARCH SENTBEFORE 99-Jan-0000\r\n",
        b"SEARCH <a> SENTBEFORE 0 1 99",
    ),
    (
        b"a SEARCH SENTON 30-Feb-2024\r\n",
        b"SEARCH <a> SENTON 2024 2 30",
    ),
    (
        b"a SEARCH SENTSINCE 0-Jun-2024\r\n",
        b"SEARCH <a> SENTSINCE 2024 6 0",
    ),
    (
        b"a SEARCH LARGER 0 SMALLER 4294967295\r\n",
        b"SEARCH <a> LARGER 0 SMALLER 4294967295",
    ),
    (
        b"a SEARCH LARGER 0000000000000000000012\r\n",
        b"SEARCH <a> LARGER 12",
    ),
    (b"a SEARCH UID 1:*\r\n", b"SEARCH <a> UID 1: *"),
    (
        b"a SEARCH 2,4:7,9,12:*\r\n",
        b"SEARCH <a> 2: 2 4: 7 9: 9 12: *",
    ),
    (b"a SEARCH *\r\n", b"SEARCH <a> *: *"),
    (b"a SEARCH 1 SEEN 2\r\n", b"SEARCH <a> 1: 1 SEEN 2: 2"),
    (b"a SEARCH NOT SEEN\r\n", b"SEARCH <a> NOT SEEN"),
    (b"a SEARCH not not 5\r\n", b"SEARCH <a> NOT NOT 5: 5"),
    (
        b"a SEARCH OR SEEN NOT DRAFT ALL\r\n",
        b"SEARCH <a> OR SEEN NOT DRAFT ALL",
    ),
    (
        b"a SEARCH OR OR 1 2 FROM x\r\n",
        b"SEARCH <a> OR OR 1: 1 2: 2 FROM <x>",
    ),
    (b"a SEARCH (SEEN)\r\n", b"SEARCH <a> ( SEEN )"),
    (
        b"a SEARCH (SEEN (1 NEW) NOT (OLD))\r\n",
        b"SEARCH <a> ( SEEN ( 1: 1 NEW ) NOT ( OLD ) )",
    ),
    (
        b"a SEARCH OR (1) (2 3)\r\n",
        b"SEARCH <a> OR ( 1: 1 ) ( 2: 2 3: 3 )",
    ),
    (
        b"a SEARCH CHARSET UTF-8 ALL\r\n",
        b"SEARCH <a> IN <UTF-8> ALL",
    ),
    (
        b"a search charset \"us-ascii\" text x\r\n",
        b"SEARCH <a> IN <us-ascii> TEXT <x>",
    ),
    (
        b"a UID SEARCH CHARSET {1}\r\nx 1\r\n",
        b"UID SEARCH <a> IN <x> 1: 1",
    ),
    (b"a UID SEARCH UID 5\r\n", b"UID SEARCH <a> UID 5: 5"),
    (b"a SEARCH FROM NIL\r\n", b"SEARCH <a> FROM <NIL>"),
    (b"a SEARCH FROM (x)\r\n", b"BAD <a>"),
    (b"a SEARCH CHARSET UTF-8\r\n", b"BAD <a>"),
    (b"a SEARCH ALL CHARSET UTF-8\r\n", b"BAD <a>"),
    (b"a SEARCH CHARSET x CHARSET y ALL\r\n", b"BAD <a>"),
    (b"a SEARCH\r\n", b"BAD <a>"),
    (b"a SEARCH ()\r\n", b"BAD <a>"),
    (b"a SEARCH (SEEN\r\n", b"BAD <a>"),
    (b"a SEARCH OR SEEN\r\n", b"BAD <a>"),
    (b"a SEARCH KEYWORD \"x\"\r\n", b"BAD <a>"),
    (b"a SEARCH KEYWORD \\Seen\r\n", b"BAD <a>"),
    (b"a SEARCH BEFORE 1-Feb-94\r\n", b"BAD <a>"),
    (b"a SEARCH BEFORE {10}\r\n1-Feb-1994\r\n", b"BAD <a>"),
    (b"a SEARCH LARGER 4294967296\r\n", b"BAD <a>"),
    (b"a SEARCH (SEEN) NOT\r\n", b"BAD <a>"),
];

/// Octets that begin with the tag `a`, and are no command.
static FAULTY: [&[u8]; 53] = [
    b"a\r\n",
    b"a\n",
    b"a \r\n",
    b"a  NOOP\r\n",
    b"a NOOP \r\n",
    b"a NOOP x\r\n",
    b"a NOOP",
    b"a NOOP\r",
    b"a NOOP\r\r\n",
    b"a NOOP\r\nb",
    b"a NOOPS\r\n",
    b"a NOO\r\n",
    b"a FOO\r\n",
    b"a XFOO\r\n",
    b"a STARTTLS\r\n",
    b"a LOGIN x\r\n",
    b"a LOGIN x y z\r\n",
    b"a LOGIN  x y\r\n",
    b"a LOGIN x\ty\r\n",
    b"a LOGIN x \"y\r\n",
    b"a LOGIN x \"\\y\"\r\n",
    b"a LOGIN x \"y\"z\r\n",
    b"a LOGIN x \"\xc3\xa9\"\r\n",
    b"a LOGIN x \"\x00\"\r\n",
    b"a LOGIN x \"\r\"\r\n",
    b"a LOGIN x y%\r\n",
    b"a LOGIN x y*\r\n",
    b"a LOGIN x y\"\r\n",
    b"a LOGIN x {1}\r\n\x00\r\n",
    b"a LOGIN x {3}\r\ny\r\n",
    b"a LOGIN x {1}y\r\n",
    b"a LOGIN x {}\r\n\r\n",
    b"a LOGIN x {1+}\r\ny\r\n",
    b"a LOGIN x {4294967296}\r\ny\r\n",
    b"a AUTHENTICATE \"PLAIN\"\r\n",
    b"a AUTHENTICATE PLAIN x\r\n",
    b"a AUTHENTICATE x]\r\n",
    b"a SELECT\r\n",
    b"a SELECT (x)\r\n",
    b"a LIST * *\r\n",
    b"a LIST \"\"\r\n",
    b"a STATUS x ()\r\n",
    b"a STATUS x MESSAGES\r\n",
    b"a STATUS x (MESSAGES )\r\n",
    b"a APPEND x \"hi\"\r\n",
    b"a APPEND x (\\Recent) {0}\r\n\r\n",
    b"a APPEND x 1-Feb-1994 {0}\r\n\r\n",
    b"a COPY 0 x\r\n",
    b"a COPY 01 x\r\n",
    b"a COPY 1, x\r\n",
    b"a COPY 1:2:3 x\r\n",
    b"a COPY 4294967296 x\r\n",
    b"a COPY 1:x y\r\n",
];

/// Octets of FETCH with the tag `a` that are no command.
static FAULTY_FETCHES: [&[u8]; 26] = [
    b"a FETCH 1\r\n",
    b"a FETCH 1 \r\n",
    b"a FETCH 1 ()\r\n",
    b"a FETCH 1 (ALL)\r\n",
    b"a FETCH 1 ALL FLAGS\r\n",
    b"a FETCH 1 FLAGS UID\r\n",
    b"a FETCH 1 (FLAGS  UID)\r\n",
    b"a FETCH 1 (FLAGS UID\r\n",
    b"a FETCH 1 BODY.PEEK\r\n",
    b"a FETCH 1 BODY [1]\r\n",
    b"a FETCH 1 BODY[MIME]\r\n",
    b"a FETCH 1 BODY[0]\r\n",
    b"a FETCH 1 BODY[01]\r\n",
    b"a FETCH 1 BODY[1.]\r\n",
    b"a FETCH 1 BODY[1.0]\r\n",
    b"a FETCH 1 BODY[HEADER.FIELDS]\r\n",
    b"a FETCH 1 BODY[HEADER.FIELDS ()]\r\n",
    b"a FETCH 1 BODY[TEXT.1]\r\n",
    b"a FETCH 1 BODY[1.MIME.2]\r\n",
    b"a FETCH 1 BODY[]<0>\r\n",
    b"a FETCH 1 BODY[]<0.0>\r\n",
    b"a FETCH 1 BODY[]<1.01>\r\n",
    b"a FETCH 1 BODY<0.1>\r\n",
    b"a FETCH 1 BODY[] <0.1>\r\n",
    b"a FETCH 1 RFC822.PEEK\r\n",
    b"a FETCH 1 BODY[]<4294967296.1>\r\n",
];

/// Octets that begin with no tag that can be read.
static TAGLESS: [&[u8]; 14] = [
    b"",
    b"\r\n",
    b"\n",
    b" NOOP\r\n",
    b"+ NOOP\r\n",
    b"a+b NOOP\r\n",
    b"a(b NOOP\r\n",
    b"a\tNOOP\r\n",
    b"\xc3\xa9 NOOP\r\n",
    b"a{1}\r\nx\r\n",
    b"\"a\" NOOP\r\n",
    b"a\\b NOOP\r\n",
    b"a",
    b"a\r",
];

/// Commands of which no shorter start is a command.
static WHOLE: [&[u8]; 10] = [
    b"a NOOP\n",
    b"a LOGIN {1}\r\nx \"y\\\"\"\n",
    b"a LIST \"\" {1}\r\n%\n",
    b"a STATUS x (MESSAGES UNSEEN)\n",
    b"a APPEND x (\\Seen) \" 7-Feb-1994 21:52:25 -0800\" {2}\r\nhi\n",
    b"a COPY 1,5:2,*:3 x\n",
    b"a FETCH 1:* (FLAGS BODY[1.2.HEADER.FIELDS (x {1}\r\ny)]<0.5> UID)\n",
    b"a UID STORE 1 +FLAGS.SILENT (\\Seen x)\n",
    b"a SEARCH CHARSET x OR (1 SEEN) NOT HEADER x \"y\"\n",
    b"a UID SEARCH SINCE \"1-Feb-1994\" LARGER 5\n",
];

/// Returns whether octets are no command.
fn is_none(alloc: Global, command: &[u8]) -> Result<bool, NoMemory> {
    Ok(means(alloc, command, b"BAD <a>")? || means(alloc, command, b"NOTAG")?)
}

/// Returns whether a command is one, and no shorter start of it is.
fn is_whole(alloc: Global, command: &[u8]) -> Result<bool, NoMemory> {
    for cut in 0..command.len() {
        if !is_none(alloc, command.split_at(cut).0)? {
            return Ok(false);
        }
    }
    Ok(!is_none(alloc, command)?)
}

/// Returns whether a command means this.
fn means(alloc: Global, command: &[u8], meaning: &[u8]) -> Result<bool, NoMemory> {
    let mut spelling = Spelling::new(alloc);
    spelling.reading(command)?;
    Ok(spelling.as_slice() == meaning)
}

/// Appends `NOT ` so many times between the start of a search and its end.
fn means_nested(alloc: Global, count: usize, is_read: bool) -> Result<bool, NoMemory> {
    let mut command = Bytes::new(alloc);
    command.push_slice(b"a SEARCH ")?;
    for _index in 0..count {
        command.push_slice(b"NOT ")?;
    }
    command.push_slice(b"ALL\r\n")?;
    let is_bad = means(alloc, command.as_slice(), b"BAD <a>")?;
    Ok(is_bad != is_read)
}

/// The same with parentheses.
fn means_in_parentheses(alloc: Global, count: usize, is_read: bool) -> Result<bool, NoMemory> {
    let mut command = Bytes::new(alloc);
    command.push_slice(b"a SEARCH ")?;
    for _index in 0..count {
        command.push(b'(')?;
    }
    command.push_slice(b"ALL")?;
    for _index in 0..count {
        command.push(b')')?;
    }
    command.push_slice(b"\r\n")?;
    let is_bad = means(alloc, command.as_slice(), b"BAD <a>")?;
    Ok(is_bad != is_read)
}

#[test]
fn commands_mean_what_they_spell(rt: HostRuntime) -> Result<(), Fail> {
    for case in &COMMANDS {
        assert!(rt; means(rt.alloc(), case.0, case.1)?);
    }
    Ok(())
}

#[test]
fn fetches_mean_what_they_spell(rt: HostRuntime) -> Result<(), Fail> {
    for case in &FETCHES {
        assert!(rt; means(rt.alloc(), case.0, case.1)?);
    }
    Ok(())
}

#[test]
fn searches_mean_what_they_spell(rt: HostRuntime) -> Result<(), Fail> {
    for case in &SEARCHES {
        assert!(rt; means(rt.alloc(), case.0, case.1)?);
    }
    Ok(())
}

#[test]
fn other_octets_are_bad_with_their_tag(rt: HostRuntime) -> Result<(), Fail> {
    for command in &FAULTY {
        assert!(rt; means(rt.alloc(), command, b"BAD <a>")?);
    }
    for command in &FAULTY_FETCHES {
        assert!(rt; means(rt.alloc(), command, b"BAD <a>")?);
    }
    Ok(())
}

#[test]
fn octets_without_a_tag_have_none(rt: HostRuntime) -> Result<(), Fail> {
    for command in &TAGLESS {
        assert!(rt; means(rt.alloc(), command, b"NOTAG")?);
    }
    Ok(())
}

#[test]
fn no_start_of_a_command_is_one(rt: HostRuntime) -> Result<(), Fail> {
    for command in &WHOLE {
        assert!(rt; is_whole(rt.alloc(), command)?);
    }
    Ok(())
}

#[test]
fn keys_are_nested_up_to_sixty_four_deep(rt: HostRuntime) -> Result<(), Fail> {
    assert!(rt; means_nested(rt.alloc(), 63, true)?);
    assert!(rt; means_nested(rt.alloc(), 64, false)?);
    assert!(rt; means_in_parentheses(rt.alloc(), 63, true)?);
    assert!(rt; means_in_parentheses(rt.alloc(), 64, false)?);
    Ok(())
}
