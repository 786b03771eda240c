//! Outs that fail or are full, and writers.
ghost use Rattle.std.specs.Prelude.{◌≡◌};
ghost use Rattle.giop_print.specs.Output.{saturating_next};

use crate::streams::{REQUEST, header, request};
use giop_cdr::Order;
use giop_print::{Out, OutFault, Sheet, Written, end_line, put_all, start_line};
use std::test::Fail;

/// One more, except that a count of 2^64 - 1 stays.
#[tactic(auto, unfolding(giop_print::specs::Output::saturating_next))]
fn one_more(count: u64) -> u64
    ensures { result ≡ saturating_next count }
{
    count.saturating_add(1)
}

/// A sheet that takes one octet at each put, and fails at the put of a given number.
#[derive(Drop)]
struct FailsAt<'a> {
    sheet: Sheet<'a>,
    number: u64,
    puts: u64,
    failures: u64,
}

impl<'a> Out for FailsAt<'a> {
    ghost use Rattle.std.specs.Prelude.{None};

    ghost log = { λ out. record { written = None; puts = out.puts; failures = out.failures } };

    fn put(&mut self, octets: &[u8]) -> Result<usize, OutFault> {
        self.puts = one_more(self.puts);
        if self.puts != self.number {
            match octets {
                [] => return Ok(0),
                [first, ..] => {
                    if put_all(&mut self.sheet, &[*first]).is_ok() {
                        return Ok(1);
                    }
                }
            }
        }
        self.failures = one_more(self.failures);
        Err(OutFault)
    }
}

#[test]
fn an_out_that_fails_holds_what_came_before(rt: HostRuntime) {
    for number in 1..REQUEST.len() + 2 {
        let differs = failing_differs(REQUEST, number);
        assert!(rt; differs.is_empty(), "put {number}: {differs}");
    }
}

/// What differs of a request's lines if the put of this number fails.
fn failing_differs(lines: &[u8], number: usize) -> &'static str {
    if number == 0 || number > lines.len() + 1 {
        return "the number";
    }
    let mut room = [0; 512];
    let sheet = Sheet::new(&mut room);
    let mut out = FailsAt {
        sheet,
        number: number as u64,
        puts: 0,
        failures: 0,
    };
    if request(&mut out).is_err() != (number <= lines.len()) {
        return "the answer";
    }
    if out.sheet.held() == &lines[..number - 1] {
        ""
    } else {
        "the lines"
    }
}

#[test]
fn a_full_sheet_fails(rt: HostRuntime) {
    let differs = full_differs(b"m1 start 1.0 big Clo");
    assert!(rt; differs.is_empty(), "{differs}");
}

/// What differs if a sheet has room only for a front of a line.
fn full_differs(front: &[u8]) -> &'static str {
    let mut room = [0; 20];
    let mut sheet = Sheet::new(&mut room);
    if start_line(&mut sheet, 1, header(0, Order::Big, 5, 0)).is_ok() {
        return "the answer";
    }
    if sheet.held() != front {
        return "the line";
    }
    if sheet.put(b"") != Ok(0) {
        return "no octet";
    }
    if sheet.put(b"s").is_ok() {
        "an octet"
    } else {
        ""
    }
}

#[test]
fn a_writer_takes_a_line_or_what_it_can(rt: HostRuntime) -> Result<(), Fail> {
    let mut text = Vec::new(rt.alloc());
    end_line(&mut Written::new(&mut text), 12)?;
    assert!(rt; text.as_slice() == b"m12 end\n".as_slice());
    let mut small = [0; 4];
    let is_written = end_line(&mut Written::new(small.as_mut_slice()), 12).is_ok();
    assert!(rt; !is_written && small.as_slice() == b"m12 ".as_slice());
    Ok(())
}
