// Reports of images, and what each format makes of them.
use outside::Bytes;
use ramoops_layout::{ByteOrder, Order, Params, layout};
use region_report::{Division, Report, report_of};
use report_html::html;
use report_json::json;
use report_text::text;
use std::alloc::Global;
use std::test::Fail;
use symbols::Symbols;

/// Memory of 4096 bytes in blocks of 128, without parity and without a zone.
pub const BARE: Params = Params {
    mem: 4096,
    dump: 0,
    console: 0,
    ftrace: 0,
    pmsg: 0,
    ecc: 0,
    cpus: 1,
    ftrace_sig: 0,
    block: 128,
    ecc_dump: 0,
    ecc_console: 0,
    ecc_ftrace: 0,
    ecc_pmsg: 0,
    order: Order::FtracePmsg,
    byte_order: ByteOrder::Little,
};

/// A console of 4096 bytes, with so many bytes of parity.
pub fn console(ecc: u64) -> Params {
    Params {
        console: 4096,
        ecc,
        ecc_dump: ecc,
        ecc_console: ecc,
        ecc_ftrace: ecc,
        ecc_pmsg: ecc,
        ..BARE
    }
}

/// The report on an image of this layout.
pub fn report_by(
    alloc: Global,
    params: &Params,
    image: Vec<u8>,
    symbols: &Symbols,
) -> Result<Report, Fail> {
    let zones = layout(alloc, params)?;
    let image = Bytes::from_vec(image);
    if image.len() != zones.mem() as usize {
        return Err(Fail::from("the image has another size"));
    }
    Ok(report_of(alloc, &zones, symbols, image)?)
}

/// The same without symbols.
pub fn report_on(alloc: Global, params: &Params, image: Vec<u8>) -> Result<Report, Fail> {
    report_by(alloc, params, image, &Symbols::none(alloc))
}

/// The text of the report on an image, with ten lines of a record.
pub fn text_on(alloc: Global, path: &[u8], params: &Params, image: Vec<u8>) -> Result<Bytes, Fail> {
    let zones = layout(alloc, params)?;
    let image = Bytes::from_vec(image);
    if image.len() != zones.mem() as usize {
        return Err(Fail::from("the image has another size"));
    }
    let report = report_of(alloc, &zones, &Symbols::none(alloc), image)?;
    Ok(text(alloc, path, zones.zones(), &report, 10, b"")?)
}

/// The line of JSON of a report.
pub fn line_of(
    alloc: Global,
    path: &str,
    params: &Params,
    report: &Report,
) -> Result<String, Fail> {
    let zones = layout(alloc, params)?;
    let zones = zones.zones();
    if report.logs().len() as usize != zones.len() || report.parts().len() != zones.len() {
        return Err(Fail::from("the report has other zones"));
    }
    let line = json(alloc, path, &Division::Region(*params), zones, report, "")?;
    Ok(String::from_str(alloc, str::from_utf8(line.as_slice())?)?)
}

/// Its page.
pub fn page_of(
    alloc: Global,
    path: &[u8],
    params: &Params,
    report: &Report,
) -> Result<Vec<u8>, Fail> {
    let zones = layout(alloc, params)?;
    Ok(html(
        alloc,
        path,
        &Division::Region(*params),
        zones.zones(),
        report,
        b"",
    )?)
}

/// Whether a page has this text.
pub fn has(page: &[u8], text: &str) -> Result<bool, Fail> {
    Ok(str::from_utf8(page)?.contains(text))
}
