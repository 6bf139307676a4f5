// Pages for programs in C: what `page` does, under a name for C.
ghost use Rattle.std.specs.Prelude.{length};
ghost use Rattle.buffers.specs.Buffers.{writing, WriteNumber};
ghost use Rattle.page.specs.Page.{page_bytes, page_into, page_questions};

// 30, 31, 12, 32. `count` gets the bytes written, or 0.
// Stays (C interface): the number and the count go out apart.
pub fn matlink_page(record: &[u16], page: u64, buffer: &mut [u8], count: &mut u64) -> u8
    ensures { WriteNumber (page_questions «record».now page (length buffer.old))
        (writing (page_bytes «record».now page) (page_into «record».now page buffer.old))
        buffer.old buffer.new count.new result }
{
    // Stays (no plainer): std has no From between u64 and usize, which are of one width here.
    let written = page::page(record, page as usize, buffer);
    *count = written.unwrap_or(0) as u64;
    limits::answer::number(&written)
}
