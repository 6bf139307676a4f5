// Pages for programs in C.
ghost use Rattle.std.specs.Prelude.{length};
ghost use Rattle.buffers.specs.Buffers.{writing, WriteNumber};
ghost use Rattle.page.specs.Page.{page_bytes, page_into, page_questions};

#[unsafe(no_mangle)]
pub extern "C" fn matlink_page(record: &[u16], page: u64, buffer: &mut [u8], count: &mut u64) -> u8
    ensures { WriteNumber (page_questions «record».now page (length buffer.old))
        (writing (page_bytes «record».now page) (page_into «record».now page buffer.old))
        buffer.old buffer.new count.new result }
{
    exports::cpage::matlink_page(record, page, buffer, count)
}
