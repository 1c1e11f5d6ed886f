// Ports over a reader and a writer that are short, interrupted and failing.
use crate::port_tests::wrong;
use port_io::StreamPort;
use std::io;
use std::io::{ErrorKind, Read, Write};

// A reader of the bytes of a text, and a writer that takes these bytes in their order and no others. Each call does what the next letter of its
// plan says: a digit moves at most so many bytes, `i` is interrupted and `f` fails. Behind the plan a call moves what it can.
#[derive(Clone, Copy)]
struct Planned<'a> {
    plan: &'a [u8],
    text: &'a [u8],
}

impl<'a> Planned<'a> {
    // How many bytes the next call moves at most.
    fn limit(&mut self) -> io::Result<usize> {
        let Some((letter, rest)) = self.plan.split_first() else {
            return Ok(usize::MAX);
        };
        self.plan = rest;
        match *letter {
            b'i' => Err(io::Error::from(ErrorKind::Interrupted)),
            b'f' => Err(io::Error::from(ErrorKind::Other)),
            digit => Ok(digit.saturating_sub(b'0') as usize),
        }
    }
}

impl<'a> Read for Planned<'a> {
    fn read(&mut self, buf: &mut [u8]) -> io::Result<usize> {
        let count = self.limit()?.min(buf.len());
        self.text.read(&mut buf[..count])
    }
}

impl<'a> Write for Planned<'a> {
    fn write(&mut self, bytes: &[u8]) -> io::Result<usize> {
        let count = self.limit()?.min(bytes.len());
        match self.text.strip_prefix(&bytes[..count]) {
            Some(rest) => {
                self.text = rest;
                Ok(count)
            }
            None => Err(io::Error::from(ErrorKind::InvalidData)),
        }
    }

    fn flush(&mut self) -> io::Result<()> {
        Ok(())
    }
}

// A plan, the text that is read or written, and how the calls of a port over it go.
const STREAMS: [(&str, &str, &str); 10] = [
    // Short, interrupted once and again, and failing; a call that failed moves no byte.
    ("2i3f9", "abcdefgh", "ab|cde|!|fgh|"),
    ("iii2", "abc", "ab|c|"),
    ("f", "ab", "!|ab|"),
    ("1f", "ab", "a|!|b|"),
    ("11f", "ab", "a|b|!|"),
    ("2i3f9", "abcdefgh", "abcdefgh=ab|cdefgh=cde|fgh=!|fgh=fgh"),
    ("iii2", "abc", "abc=ab|c=c"),
    ("f", "ab", "ab=!|ab=ab"),
    ("1f", "ab", "ab=a|b=!|b=b"),
    // A write that takes nothing is a fault, unless there is nothing to write.
    ("00", "a", "a=!|=|a=a"),
];

fn goes(plan: &str, text: &str, calls: &str) -> bool {
    let stream = Planned {
        plan: plan.as_bytes(),
        text: text.as_bytes(),
    };
    wrong(&mut StreamPort::new(stream, stream), calls).is_none()
}

#[test]
fn a_port_over_a_reader_and_a_writer_goes_as_they_do(rt: HostRuntime) {
    for (plan, text, calls) in STREAMS {
        assert!(rt; goes(plan, text, calls), "by {plan}: {calls}");
    }
}
