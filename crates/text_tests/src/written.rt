//! Lines that are written, and read again.
use super::readers::{Host, expect, limits};
use rapid_text::{Device, Output, Reader, write_event, write_fault};
use test_doubles::{Page, Room};

/// Reads each event and writes its line: whether all were written, up to the end of the text. None where it
/// could not be read.
fn copy_all<W: Output>(reader: &mut Reader<Device<&[u8]>>, w: &mut W) -> Option<bool> {
    for _ in 0..100 {
        match reader.next() {
            Ok(Some(event)) => {
                if write_event(w, &event, reader.names()).is_err() {
                    return Some(false);
                }
            }
            Ok(None) => return Some(true),
            Err(_) => return None,
        }
    }
    Some(false)
}

/// Whether the lines of all events of the text are written. None where it could not be read.
fn copy<W: Output>(rt: &impl Host, text: &[u8], w: &mut W) -> Option<bool> {
    let made = Reader::new(rt.alloc(), Device::new(text), limits(rt), 100);
    let mut reader = made.expect(rt, "a reader");
    let is_copied = copy_all(&mut reader, w);
    drop(reader);
    is_copied
}

const TEXT: &[u8] =
    b"T0|w(a(b))|\nT0|fork(T1)|1\nT1|acq(l)|2\nT1|rel(l)|3\nT1|r(a(b))|\xff\nT0|join(T1)|4\n";

/// In this room just so many bytes of the text are written.
fn expect_copied(rt: &impl Host, room: Room, len: usize) {
    let mut page = Page::blank(room);
    let is_copied = copy(rt, TEXT, &mut page);
    let len = len.min(TEXT.len());
    let wanted = (Some(len == TEXT.len()), &TEXT[..len]);
    expect(rt, b"a text in parts", &(is_copied, page.bytes()), &wanted);
}

/// A byte a put, the text takes as many puts as it has bytes.
#[test]
fn what_is_written_is_the_text_that_was_read(rt: HostRuntime) {
    for most in [3, 4096] {
        expect_copied(&rt, Room::of(most, 4096), TEXT.len());
    }
    for puts in 0..=TEXT.len() {
        expect_copied(&rt, Room::of(1, puts), puts);
    }
}

const FAULT_LINE: &[u8] = b"line 12: Held\n";

/// In so many puts of a byte just so many bytes of the line are written, and the page has failed where they
/// are too few.
#[test]
fn a_fault_line_is_written(rt: HostRuntime) {
    for puts in 0..=FAULT_LINE.len() {
        let mut page = Page::blank(Room::of(1, puts));
        let is_written = write_fault(&mut page, 12, "Held").is_ok();
        let is_whole = puts == FAULT_LINE.len();
        let came = (is_written, page.failed, page.bytes());
        let wanted = (is_whole, !is_whole, &FAULT_LINE[..puts]);
        expect(&rt, FAULT_LINE, &came, &wanted);
    }
}

/// Whether a fault line is written to so many bytes, after which the writer takes nothing.
fn fits_fault_line(room: &mut [u8]) -> bool {
    write_fault(&mut Device::new(room), 12, "Held").is_ok()
}

/// Whether the line of an event is.
fn fits_event(rt: &impl Host, room: &mut [u8]) -> Option<bool> {
    copy(rt, b"T0|w(x)|1", &mut Device::new(room))
}

/// A slice takes what it has room for, and then nothing.
#[test]
fn a_writer_that_takes_nothing_has_failed(rt: HostRuntime) {
    let mut bytes = [0u8; 16];
    for room in 0..16 {
        let bytes = &mut bytes[..room];
        let fits = (room, fits_fault_line(bytes));
        expect(&rt, b"a fault line", &fits, &(room, room >= 14));
        let fits = (room, fits_event(&rt, bytes));
        expect(&rt, b"an event", &fits, &(room, Some(room >= 10)));
    }
}
