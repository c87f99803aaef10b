// What the examples are made of: files of circuits, and drafts of two registers.
use delay_file::view::FileView;
use delay_file::whole_file::encode_file;
use plan_file::draft::Draft;
use std::alloc::Global;
use std::test::Fail;
use timing::pair::Pair;

// The file of a circuit with registers of these names, and these pairs.
pub(crate) fn circuit_file(heap: Global, names: &[&[u8]], pairs: &[Pair]) -> Result<Vec<u8>, Fail> {
    encode_file(heap, names, pairs).map_err(|_| Fail::new("the circuit is written"))
}

// The same file, opened.
pub(crate) fn opened<'a>(file: &'a [u8]) -> Result<FileView<'a>, Fail> {
    FileView::open(file).map_err(|_| Fail::new("the circuit opens"))
}

// The first register early, the second one late.
pub(crate) fn draft(period: u32, offset: u32) -> Draft<'static> {
    Draft {
        period,
        offset,
        domains: &[0, 1],
    }
}
