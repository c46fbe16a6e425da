//! Escaped texts and ids in addresses, worked out from the rules.
use arch_base::{Bytes, NoMemory};
use std::alloc::Global;
use web_text::{push_address, push_escaped};

/// Bytes, and what a page or an address has of them.
#[derive(Drop)]
struct TextCase {
    text: &'static [u8],
    made: &'static [u8],
}

/// Texts with markup, control characters, characters that XML excludes, and bytes that aren't UTF-8.
static ESCAPES: [TextCase; 16] = [
    TextCase {
        text: b"",
        made: b"",
    },
    TextCase {
        text: b"plain 'text'\twith a tab\n",
        made: b"plain 'text'\twith a tab\n",
    },
    TextCase {
        text: b"<b>&\"",
        made: b"&lt;b&gt;&amp;&quot;",
    },
    TextCase {
        text: b"a ]]> b &amp; c",
        made: b"a ]]&gt; b &amp;amp; c",
    },
    TextCase {
        text: b"\0\x08\x0b\x0c\x0d\x1f\x7f",
        made: b"\xef\xbf\xbd\xef\xbf\xbd\xef\xbf\xbd\xef\xbf\xbd\xef\xbf\xbd\xef\xbf\xbd\xef\xbf\xbd",
    },
    TextCase {
        text: b"a\r\nb\x1b[0m",
        made: b"a\xef\xbf\xbd\nb\xef\xbf\xbd[0m",
    },
    TextCase {
        text: b"\xc2\x80\xc2\x9f\xc2\xa0",
        made: b"\xc2\x80\xc2\x9f\xc2\xa0",
    },
    TextCase {
        text: b"Bj\xc3\xb6rn \xe2\x82\xac",
        made: b"Bj\xc3\xb6rn \xe2\x82\xac",
    },
    TextCase {
        text: b"\xef\xbf\xbe \xef\xbf\xbf \xef\xbf\xbd",
        made: b"\xef\xbf\xbd \xef\xbf\xbd \xef\xbf\xbd",
    },
    TextCase {
        text: b"\xef\xbf\xbc\xef\xbe\xbf\xef\xbe\xbe",
        made: b"\xef\xbf\xbc\xef\xbe\xbf\xef\xbe\xbe",
    },
    TextCase {
        text: b"\xf0\x9f\x98\x80\xf4\x8f\xbf\xbf\xf0\x9f\xbf\xbe",
        made: b"\xf0\x9f\x98\x80\xf4\x8f\xbf\xbf\xf0\x9f\xbf\xbe",
    },
    TextCase {
        text: b"\x80a\xff",
        made: b"\xef\xbf\xbda\xef\xbf\xbd",
    },
    TextCase {
        text: b"\xe2\x82<",
        made: b"\xef\xbf\xbd&lt;",
    },
    TextCase {
        text: b"\xed\xa0\x80",
        made: b"\xef\xbf\xbd\xef\xbf\xbd\xef\xbf\xbd",
    },
    TextCase {
        text: b"\xc0\xbc",
        made: b"\xef\xbf\xbd\xef\xbf\xbd",
    },
    TextCase {
        text: b"\"\"&&",
        made: b"&quot;&quot;&amp;&amp;",
    },
];

/// Ids, and what an address has of them.
static ADDRESSES: [TextCase; 8] = [
    TextCase {
        text: b"<a@x>",
        made: b"a@x",
    },
    TextCase {
        text: b"<Az09-._~@Z>",
        made: b"Az09-._~@Z",
    },
    TextCase {
        text: b"<a+b/c%&'d@x>",
        made: b"a%2Bb%2Fc%25%26%27d@x",
    },
    TextCase {
        text: b"<\"#?[]{}|\\^`>",
        made: b"%22%23%3F%5B%5D%7B%7D%7C%5C%5E%60",
    },
    TextCase {
        text: b"<!$()*,:;=>",
        made: b"%21%24%28%29%2A%2C%3A%3B%3D",
    },
    TextCase {
        text: b"<\0\x0a \x7f\x80\xab\xff>",
        made: b"%00%0A%20%7F%80%AB%FF",
    },
    TextCase {
        text: b"<>",
        made: b"",
    },
    TextCase {
        text: b"",
        made: b"",
    },
];

/// Returns an escaped text after other bytes.
fn escaped_after(alloc: Global, front: &[u8], text: &[u8]) -> Result<Bytes, NoMemory> {
    let mut into = Bytes::new(alloc);
    into.push_slice(front)?;
    push_escaped(alloc, text, &mut into)?;
    Ok(into)
}

/// Returns an id in an address after other bytes.
fn address_after(alloc: Global, front: &[u8], id: &[u8]) -> Result<Bytes, NoMemory> {
    let mut into = Bytes::new(alloc);
    into.push_slice(front)?;
    push_address(id, &mut into)?;
    Ok(into)
}

/// Returns whether what was made is this text after a `> `.
fn is_after_front(made: Result<Bytes, NoMemory>, text: &[u8]) -> bool {
    match made {
        Ok(bytes) => bytes.as_slice().strip_prefix(b"> ") == Some(text),
        Err(NoMemory) => false,
    }
}

#[test]
fn no_byte_of_a_text_is_markup(rt: HostRuntime) {
    for case in &ESCAPES {
        assert!(rt; is_after_front(escaped_after(rt.alloc(), b"> ", case.text), case.made));
    }
}

#[test]
fn no_byte_of_an_id_divides_an_address(rt: HostRuntime) {
    for case in &ADDRESSES {
        assert!(rt; is_after_front(address_after(rt.alloc(), b"> ", case.text), case.made));
    }
}
