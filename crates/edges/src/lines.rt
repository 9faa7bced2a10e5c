// Lines of text at their edges, and pages of exactly the right length.
use events::read_event;
use figures::money::Money;
use page::Draft;
use statements::drafts::sums;
use statements::refused::Refused;
use statements::statement::statement;
use std::test::*;

/// The number and the value of the reader's answer, as the page prints them.
fn fault(line: &[u8]) -> (u32, u8) {
    read_event(line)
        .err()
        .map_or((0, 0), |fault| (fault.number(), fault.column()))
}

#[test]
fn letters_and_counts(rt: HostRuntime) {
    for (line, answer) in [
        ("", (18, 1)),
        ("T", (18, 1)),
        ("t,1,1", (18, 1)),
        ("\rH,1", (18, 1)),
        ("HH,1", (18, 1)),
        ("H,1,", (18, 1)),
        ("B,1,2,3,4", (18, 1)),
        ("B,1,2,3,4,5", (0, 0)),
        ("B,1,2,3,4,5,6", (18, 1)),
    ] {
        assert_eq!(rt; fault(line.as_bytes()), answer, "{line}");
    }
}

#[test]
fn a_hundred_and_forty_bytes(rt: HostRuntime) {
    assert_eq!(rt; fault(&[b'1'; 140]), (18, 1));
    assert_eq!(rt; fault(&[b'1'; 141]), (20, 141));
}

#[test]
fn digits(rt: HostRuntime) {
    for (line, answer) in [
        ("P,1,9999999999999", (0, 0)),
        ("P,1,10000000000000", (19, 5)),
        ("P,1,01", (19, 5)),
        ("P,0,0", (0, 0)),
        ("P,,0", (19, 3)),
        // one past the line's end
        ("P,1,", (19, 5)),
        ("P,1,1\r", (19, 5)),
        ("P,1,\0", (19, 5)),
        ("P,1,é", (19, 5)),
        // the first from the left
        ("B,1,22,333,x,y", (19, 12)),
    ] {
        assert_eq!(rt; fault(line.as_bytes()), answer, "{line}");
    }
    assert_eq!(rt; fault(b"P,1,\xff"), (19, 5));
}

#[test]
fn letters_and_counts_of_estimates_and_corrections(rt: HostRuntime) {
    for (line, number) in [
        ("E", 18),
        ("E,1,30,300,0", 18),
        ("E,1,30,300,0,0", 0),
        ("E,1,30,300,0,0,0", 18),
        ("e,1,30,300,0,0", 18),
        ("C", 18),
        ("C,1,U,c,15,n,0,0,M,600,1000,0,0", 18),
        ("C,1,U,c,15,n,0,0,M,600,1000,0,0,0", 0),
        ("C,1,U,c,15,n,0,0,M,600,1000,0,0,0,0", 18),
        ("c,1,U,c,15,n,0,0,M,600,1000,0,0,0", 18),
        ("CC,1,U,c,15,n,0,0,M,600,1000,0,0,0", 18),
        (",1,U,c,15,n,0,0,M,600,1000,0,0,0", 18),
    ] {
        assert_eq!(rt; fault(line.as_bytes()).0, number, "{line}");
    }
}

#[test]
fn fields_of_an_estimate(rt: HostRuntime) {
    for (line, column) in [
        (
            "E,9999999999999,9999999999999,9999999999999,9999999999999,9999999999999",
            0,
        ),
        ("E,10000000000000,0,0,0,0", 3),
        ("E,0,10000000000000,0,0,0", 5),
        ("E,0,0,10000000000000,0,0", 7),
        ("E,0,0,0,10000000000000,0", 9),
        ("E,0,0,0,0,10000000000000", 11),
        ("E,1,30,300,00,0", 12),
        ("E,1,30,0300,0,0", 8),
        ("E,1,30,300,0,", 14),
        ("E,1,30,300,-1,+1", 12),
    ] {
        assert_eq!(rt; fault(line.as_bytes()).1, column, "{line}");
    }
}

#[test]
fn letters_in_a_correction(rt: HostRuntime) {
    for (line, column) in [
        ("C,1,A,s,15,n,0,0,M,600,1000,0,0,0", 0),
        ("C,1,O,s,15,y,0,0,M,600,1000,0,0,0", 0),
        ("C,1,S,c,15,y,0,0,M,600,1000,0,0,0", 0),
        ("C,1,X,c,15,n,0,0,M,600,1000,0,0,0", 0),
        ("C,1,u,c,15,n,0,0,M,600,1000,0,0,0", 5),
        ("C,1,E,c,15,n,0,0,M,600,1000,0,0,0", 5),
        ("C,1,,c,15,n,0,0,M,600,1000,0,0,0", 5),
        ("C,1,UO,C,15,n,0,0,M,600,1000,0,0,0", 5),
        ("C,1,U,C,15,n,0,0,M,600,1000,0,0,0", 7),
        ("C,1,U,,15,n,0,0,M,600,1000,0,0,0", 7),
        ("C,1,U,c,15,Y,0,0,M,600,1000,0,0,0", 12),
        ("C,1,U,c,15,yn,0,0,M,600,1000,0,0,0", 12),
        ("C,1,U,c,15,n,0,0,G,600,1000,0,0,0", 18),
        ("C,1,U,c,15,n,0,0,m,600,1000,0,0,0", 18),
        ("C,1,U,c,15,n,0,0,ML,600,1000,0,0,0", 18),
        ("C,1,U,c,15,n,0,0,,x,x,x,x,x", 18),
    ] {
        assert_eq!(rt; fault(line.as_bytes()).1, column, "{line}");
    }
}

#[test]
fn method_fields_of_a_correction(rt: HostRuntime) {
    for (line, column) in [
        ("C,1,U,c,15,n,0,0,M,0,0,0,0,0", 0),
        ("C,1,U,c,15,n,0,0,M,00,0,0,0,0", 20),
        ("C,1,U,c,15,n,0,0,M,0,,0,0,0", 22),
        ("C,1,U,c,15,n,0,0,M,0,0,1,0,0", 24),
        ("C,1,U,c,15,n,0,0,M,0,0,0,00,0", 26),
        ("C,1,U,c,15,n,0,0,M,0,0,0,0,", 28),
        ("C,1,S,c,15,n,0,0,P,7,0,0,0,0", 0),
        ("C,1,S,c,15,n,0,0,P,7,7,0,0,0", 22),
        ("C,1,S,c,15,n,0,0,P,7,0,0,0,0x", 28),
        ("C,1,S,c,15,n,0,0,L,7,0,0,0,0", 0),
        ("C,1,S,c,15,n,0,0,L,,7,0,0,0", 20),
        ("C,1,S,c,15,n,0,0,L,7,,0,0,0", 22),
        ("C,1,X,c,15,n,0,0,D,7,7,7,7,7", 0),
        ("C,1,X,c,15,n,0,0,D,7,7,7,7,07", 28),
    ] {
        assert_eq!(rt; fault(line.as_bytes()).1, column, "{line}");
    }
}

/// The longest lawful line is a correction by contract demand with 13 digits in each figure: it has 135 bytes, so no lawful
/// line has 140. What follows it makes the last field unlawful until the line itself is too long.
#[test]
fn the_longest_lines(rt: HostRuntime) {
    let text =
        b"C,9999999999999,X,s,9999999999999,y,9999999999999,9999999999999,D,9999999999999,9999999999999,9999999999999,9999999999999,9999999999999999999";
    // the last field has 13 digits, 14 digits, and as many as the line has room for
    for (bytes, answer) in [
        (135, (0, 0)),
        (136, (19, 123)),
        (140, (19, 123)),
        (141, (20, 141)),
    ] {
        assert_eq!(rt; fault(&text[..bytes]), answer, "{bytes}");
    }
    for begin in [3, 21, 37, 51] {
        let mut line =
            *b"C,1234567890123,U,c,1234567890123,n,1234567890123,1234567890123,L,1234567890123,0,0,0,0";
        line[begin - 1] = b'0';
        assert_eq!(rt; fault(&line), (19, begin as u8));
    }
}

/// Whether the page holds what is expected, and then zeros.
fn holds(page: &[u8], expected: &[u8]) -> bool {
    page.strip_prefix(expected)
        .is_some_and(|rest| rest.iter().all(|b| *b == 0))
}

/// The bytes of a statement's result, or the number of its refusal, as C reads it.
fn stated(tariff: u64, opening: u64, text: &[u8], page: &mut [u8]) -> Result<usize, u32> {
    statement(tariff, opening, text, page).map_err(Refused::number)
}

#[test]
fn a_last_line_with_and_without_its_end(rt: HostRuntime) {
    let mut page = [7u8; 20];
    assert_eq!(rt; stated(1, 0, b"T,100,10\n", &mut page), Ok(14));
    assert!(rt; holds(&page, b"A,a,0,1\nS,0,0\n"));
    let mut again = [7u8; 20];
    assert_eq!(rt; stated(1, 0, b"T,100,10", &mut again), Ok(14));
    assert!(rt; holds(&again, b"A,a,0,1\nS,0,0\n"));
}

#[test]
fn a_page_of_exactly_the_right_length(rt: HostRuntime) {
    let mut page = [7u8; 14];
    assert_eq!(rt; stated(1, 0, b"T,100,10\n", &mut page), Ok(14));
    let mut short = [7u8; 13];
    assert_eq!(rt; stated(1, 0, b"T,100,10\n", &mut short), Err(21));
    assert!(rt; holds(&short, b""));
}

/// What a draft on these bytes tells at its end, with the sums -1 and 20 written on it and a byte after them.
fn drafted(bytes: &mut [u8]) -> Option<usize> {
    let mut draft = Draft::new(bytes);
    sums(&mut draft, Money(-1), Money(20));
    draft.push(b'.');
    draft.finish()
}

#[test]
fn a_draft_of_exactly_the_right_length(rt: HostRuntime) {
    let mut page = [7u8; 9];
    assert_eq!(rt; drafted(&mut page), Some(9));
    assert!(rt; holds(&page, b"S,-1,20\n."));
    let mut short = [7u8; 8];
    assert_eq!(rt; drafted(&mut short), None);
    assert!(rt; holds(&short, b""));
    // the byte at the end would fit, but the draft is full
    let mut shorter = [7u8; 3];
    let mut draft = Draft::new(&mut shorter);
    draft.text(b"ab");
    draft.text(b"cd");
    draft.push(b'.');
    assert_eq!(rt; draft.finish(), None);
    assert!(rt; holds(&shorter, b""));
}

#[test]
fn what_a_statement_refuses(rt: HostRuntime) {
    let mut page = [7u8; 20];
    assert_eq!(rt; stated(0, 0, b"", &mut page), Err(2));
    assert_eq!(rt; stated(5, 0, b"", &mut page), Err(2));
    assert_eq!(rt; stated(1, 18_263, b"", &mut page), Err(2));
    // cut to 32 bits, the tariff would be 1 and the day 0
    assert_eq!(rt; stated(4_294_967_297, 0, b"", &mut page), Err(2));
    assert_eq!(rt; stated(1, 4_294_967_296, b"", &mut page), Err(2));
    assert_eq!(rt; stated(1, 18_262, b"", &mut page), Err(22));
    assert!(rt; holds(&page, b""));
    assert_eq!(rt; stated(4, 18_262, b"\n", &mut page), Ok(15));
    assert!(rt; holds(&page, b"A,r,18,1\nS,0,0\n"));
}
