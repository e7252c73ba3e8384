// Pages and escaped bytes.
use crate::packed_dumps::{self, DAMAGED, WHOLE};
use crate::whole_reports::{console, has, page_of, report_on};
use crate::worked_deaths::{self, CONSOLE, FATAL, LONG, NAMED, NONE, OOPS, ORDERLY, PANIC, SILENT};
use ramoops_layout::Params;
use report_html::*;
use std::alloc::Global;
use std::test::Fail;

#[test]
fn escaped_rows(rt: HostRuntime) -> Result<(), Fail> {
    let rows: [(&[u8], &str); 8] = [
        (
            b"<script>alert('x')</script>",
            "&lt;script&gt;alert(&#39;x&#39;)&lt;/script&gt;",
        ),
        (b"</pre>", "&lt;/pre&gt;"),
        (b"\"onload=", "&quot;onload="),
        (b"a&b\tc\n", "a&amp;b\tc\n"),
        (&[0x1b, 0xff, 0xc3, 0x28, 0], "\\x1b\\xff\\xc3(\\x00"),
        (b"C:\\x41", "C:\\x5cx41"),
        (&[0x1f, 0x20, 0x7e, 0x7f, 0x80], "\\x1f ~\\x7f\\x80"),
        (
            b"thirty-two bytes without markup <then fewer",
            "thirty-two bytes without markup &lt;then fewer",
        ),
    ];
    for (bytes, text) in rows {
        let mut out = Vec::new(rt.alloc());
        push_escaped(&mut out, bytes)?;
        assert_eq!(rt; out.as_slice(), text.as_bytes());
    }
    Ok(())
}

/// The page of an image of a console with so many bytes of parity.
fn console_page(alloc: Global, ecc: u64, bytes: Vec<u8>) -> Result<Vec<u8>, Fail> {
    let params = console(ecc);
    let report = report_on(alloc, &params, bytes)?;
    page_of(alloc, b"a<b", &params, &report)
}

// The page of an image of one console record, which would be a script.
#[test]
fn hostile_record(rt: HostRuntime) -> Result<(), Fail> {
    let mut bytes = Vec::new(rt.alloc());
    bytes.extend_from_slice(&[0x44, 0x42, 0x47, 0x43, 8, 0, 0, 0, 8, 0, 0, 0])?;
    bytes.extend_from_slice(b"<script>")?;
    bytes.resize(4096, 0)?;
    let page = console_page(rt.alloc(), 0, bytes)?;
    let text = str::from_utf8(page.as_slice())?;
    assert!(rt; text.contains("<h1>Why this machine died: a&lt;b</h1>"));
    assert!(rt; text.contains("<h2 id=\"region\">The region: 4096 bytes, 1 zones</h2>"));
    assert!(rt;
        text.contains(
            "<svg x=\"0e-3%\" width=\"100000e-3%\"><title>console 0: found</title>\
<rect class=\"zone\" width=\"100%\" height=\"52\"/>\
<svg class=\"strip\" y=\"28\" height=\"24\" viewBox=\"0 0 4096 24\" preserveAspectRatio=\"none\">
<rect class=\"ok\" y=\"12\" height=\"12\" x=\"0\" width=\"12\"><title>header, clean</title></rect>
<rect class=\"ok\" y=\"12\" height=\"12\" x=\"12\" width=\"128\"><title>block 0, clean</title></rect>
<rect class=\"off\" y=\"20\" height=\"4\" x=\"140\" width=\"3956\"><title>blocks 1 to 31, not in use</title></rect>
</svg><g><text x=\"3\" y=\"13\">console 0</text><text x=\"3\" y=\"27\">4096</text></g></svg>\n"
        )
    );
    assert!(rt;
        text.contains(
            "<tr><th scope=\"row\">console 0</th><td>found</td><td class=\"n\">0</td><td class=\"n\">4096</td>\
<td class=\"n\">8</td><td class=\"n\">8</td><td class=\"n\">0</td><td class=\"n\">0</td></tr>
<tr><td class=\"pic\" colspan=\"8\"><svg class=\"strip\" viewBox=\"0 0 4096 24\" preserveAspectRatio=\"none\">
<rect class=\"ok\" y=\"12\" height=\"12\" x=\"0\" width=\"12\"><title>header, clean</title></rect>
<rect class=\"ok\" y=\"12\" height=\"12\" x=\"12\" width=\"128\"><title>block 0, clean</title></rect>
<rect class=\"off\" y=\"20\" height=\"4\" x=\"140\" width=\"3956\"><title>blocks 1 to 31, not in use</title></rect>
</svg></td></tr>\n"
        )
    );
    assert!(rt;
        text.contains(
            "<b>console-ramoops-0</b><span>8 bytes</span><span class=\"ok\">clean</span></summary>
<pre class=\"log\" id=\"console-ramoops-0\">\n&lt;script&gt;</pre>\n"
        )
    );
    assert!(rt; !text.contains("<script"));
    Ok(())
}

// A log of 1000 zeros, whose parity is zeros too, with damage in the header, block 1, blocks 3 and 4, and block 6.
fn damaged_zeros(alloc: Global) -> Result<Vec<u8>, Fail> {
    let mut bytes = Vec::new(alloc);
    bytes.extend_from_slice(&[0x44, 0x42, 0x47, 0x43, 0xe8, 3, 0, 0, 0xe8, 3, 0, 0])?;
    bytes.resize(4080, 0)?;
    let parity = [
        167, 91, 197, 161, 235, 62, 89, 195, 178, 249, 61, 125, 1, 138, 99, 55,
    ];
    bytes.extend_from_slice(&parity)?;
    for (at, b) in [(140, 1), (396, 2), (523, 3), (524, 4), (651, 5)] {
        if let Some(place) = bytes.get_mut(at) {
            *place = b;
        }
    }
    for at in 780..792 {
        if let Some(place) = bytes.get_mut(at) {
            *place = 7;
        }
    }
    Ok(bytes)
}

#[test]
fn spots_that_are_not_clean(rt: HostRuntime) -> Result<(), Fail> {
    let page = console_page(rt.alloc(), 16, damaged_zeros(rt.alloc())?)?;
    let shown = "<details open><summary><b>Headers and blocks that are not clean: 4</b></summary>
<div class=\"scroll\" tabindex=\"0\" role=\"region\" aria-label=\"Headers and blocks that are not clean\">\
<table class=\"grid\">
<tr><th scope=\"col\">Zone</th><th scope=\"col\" class=\"n\">Block</th><th scope=\"col\" class=\"n\">Place</th>\
<th scope=\"col\" class=\"n\">Bytes</th><th scope=\"col\">Read</th></tr>
<tr><th scope=\"row\">console 0</th><td class=\"n\">header</td><td class=\"n\">0</td><td class=\"n\">12</td>\
<td><span class=\"fix\">corrected 1</span></td></tr>
<tr><th scope=\"row\">console 0</th><td class=\"n\">1</td><td class=\"n\">140</td><td class=\"n\">128</td>\
<td><span class=\"fix\">corrected 1</span></td></tr>
<tr><th scope=\"row\">console 0</th><td class=\"n\">3 to 4</td><td class=\"n\">396</td><td class=\"n\">256</td>\
<td><span class=\"fix\">corrected 2 in each</span></td></tr>
<tr><th scope=\"row\">console 0</th><td class=\"n\">6</td><td class=\"n\">780</td><td class=\"n\">128</td>\
<td><span class=\"bad\">bad</span></td></tr>
</table></div>
</details>\n";
    assert!(rt; str::from_utf8(page.as_slice())?.contains(shown));
    Ok(())
}

// The more bytes of a block were corrected the higher it is, and a bad one is the highest. The parity has an outline.
#[test]
fn drawn_blocks(rt: HostRuntime) -> Result<(), Fail> {
    let page = console_page(rt.alloc(), 16, damaged_zeros(rt.alloc())?)?;
    let text = str::from_utf8(page.as_slice())?;
    let strip = " viewBox=\"0 0 4096 24\" preserveAspectRatio=\"none\">
<rect class=\"fix\" y=\"9\" height=\"15\" x=\"0\" width=\"12\"><title>header, corrected, bytes corrected in each: 1\
</title></rect>\n";
    assert!(rt; text.contains(strip));
    for shown in [
        "<rect class=\"fix\" y=\"8\" height=\"16\" x=\"396\" width=\"256\"><title>blocks 3 to 4, corrected",
        "<rect class=\"bad\" y=\"0\" height=\"24\" x=\"780\" width=\"128\"><title>block 6, bad</title></rect>\n",
        "<rect class=\"par\" y=\"12\" height=\"12\" x=\"3616\" width=\"480\"><title>parity</title></rect>\n</svg>",
    ] {
        assert!(rt; text.contains(shown), "{shown}");
    }
    Ok(())
}

// Neighbours that are empty share a row, if they are of one kind.
#[test]
fn empty_zones(rt: HostRuntime) -> Result<(), Fail> {
    for row in [
        "<tr><th scope=\"row\">dump 1 to 2</th><td>empty</td><td class=\"n\">1024</td><td class=\"n\">1024 each</td>\
<td class=\"n\">0</td><td class=\"n\">0</td><td class=\"n\">0</td><td class=\"n\">0</td></tr>\n",
        "<tr><th scope=\"row\">console 0</th><td>empty</td><td class=\"n\">3072</td><td class=\"n\">1024</td>\
<td class=\"n\">0</td><td class=\"n\">0</td><td class=\"n\">0</td><td class=\"n\">0</td></tr>\n",
    ] {
        assert!(rt; shows(rt, [NAMED, NONE, NONE, NONE], row)?, "{row}");
    }
    assert!(rt; !shows(rt, [NAMED, NONE, NAMED, NONE], " each</td>")?);
    Ok(())
}

#[test]
fn compressed_dumps(rt: HostRuntime) -> Result<(), Fail> {
    for (packed, record) in [
        (
            &WHOLE[..],
            "<b>dmesg-ramoops-0</b><span>Panic#1 Part1</span><span>2025-11-27 00:04:18.836908 UTC</span>\
<span>24 bytes</span><span>inflated from 26 bytes</span><span class=\"ok\">clean</span></summary>
<pre class=\"log\" id=\"dmesg-ramoops-0\">
Panic#1 Part1
red \\x1b\\x5c&lt;b&gt;
</pre>",
        ),
        (
            &WHOLE[..22],
            "<b>dmesg-ramoops-0.enc.z</b><span>Panic#1 Part1</span><span>2025-11-27 00:04:18.836908 UTC</span>\
<span>22 bytes</span><span class=\"fix\">inflated in part: end of input</span><span class=\"ok\">clean</span></summary>
<pre class=\"log\" id=\"dmesg-ramoops-0.enc.z\">
Panic#1 Part1
red \\x1b\\x5c&lt;</pre>",
        ),
        (
            &DAMAGED,
            "<b>dmesg-ramoops-0.enc.z</b><span></span><span>2025-11-27 00:04:18.836908 UTC</span>\
<span>12 bytes</span><span class=\"fix\">inflated in part: reserved block type</span>\
<span class=\"ok\">clean</span></summary>
<pre class=\"log\" id=\"dmesg-ramoops-0.enc.z\">

red \\xc3</pre>",
        ),
    ] {
        let report = packed_dumps::report_on(rt.alloc(), packed)?;
        let page = page_of(rt.alloc(), b"a", &packed_dumps::PARAMS, &report)?;
        assert!(rt; has(&page, record)?, "{record}");
    }
    Ok(())
}

/// Whether the page of these logs has this text.
fn shows(rt: HostRuntime, logs: [&[u8]; 4], wanted: &str) -> Result<bool, Fail> {
    let report = worked_deaths::report_on(rt.alloc(), logs)?;
    let page = page_of(rt.alloc(), b"a", &worked_deaths::PARAMS, &report)?;
    has(&page, wanted)
}

#[test]
fn no_spots(rt: HostRuntime) -> Result<(), Fail> {
    let clean =
        "<p class=\"note\">All headers and blocks in use are clean.</p>\n<div class=\"scroll\"";
    assert!(rt; shows(rt, [NAMED, NONE, NONE, NONE], clean)?);
    Ok(())
}

#[test]
fn why_it_died(rt: HostRuntime) -> Result<(), Fail> {
    let died = "</nav>
<pre class=\"why\">Kernel panic - not syncing: &lt;b&gt;\\xff</pre>
<table class=\"fact\">
<tr><th scope=\"row\">When</th><td><b>2025-11-27 00:04:18.836908 UTC</b>, 2.500000 s after boot</td></tr>
<tr><th scope=\"row\">CPU</th><td>0</td></tr>
<tr><th scope=\"row\">Task</th><td>PID: 1 Comm: init</td></tr>
<tr><th scope=\"row\">Kernel</th><td>Not tainted 6.1.0 #1</td></tr>
<tr><th scope=\"row\">Function</th><td>sysrq_handle_crash+0x16/0x20</td></tr>
<tr><th scope=\"row\">Signature</th><td>kernel panic: &lt;b&gt;\\xff</td></tr>
<tr><th scope=\"row\">Told by</th><td><a href=\"#dmesg-ramoops-0\">dmesg-ramoops-0</a></td></tr>
<tr><th scope=\"row\">Read</th><td><span class=\"ok\">clean</span></td></tr>
</table>
</header>
<main>
<h2 id=\"told\">The lines that tell it, in dmesg-ramoops-0</h2>
<pre class=\"log\" id=\"dmesg-ramoops-0\">
Panic#1 Part1
<mark><i class=\"l0\">&lt;0&gt;[    2.500000] Kernel panic - not syncing: &lt;b&gt;\\xff
</i></mark><i class=\"l4\">&lt;4&gt;[    2.600000] CPU: 0 PID: 1 Comm: init Not tainted 6.1.0 #1
</i><i class=\"l4\">&lt;4&gt;[    2.700000] Call Trace:
</i><i class=\"l4\">&lt;4&gt;[    2.800000]  panic+0x1/0x2
</i><i class=\"l4\">&lt;4&gt;[    2.900000]  sysrq_handle_crash+0x16/0x20
</i></pre>
<h2 id=\"records\">Records: 1</h2>\n";
    assert!(rt; shows(rt, [NAMED, NONE, NONE, NONE], died)?);
    Ok(())
}

#[test]
fn why_it_died_by_the_console(rt: HostRuntime) -> Result<(), Fail> {
    let died = "<tr><th scope=\"row\">When</th><td>no date, 3.034971 s after boot</td></tr>
<tr><th scope=\"row\">CPU</th><td>not recorded</td></tr>
<tr><th scope=\"row\">Function</th><td>not recorded</td></tr>
<tr><th scope=\"row\">Signature</th><td>kernel panic: sysrq triggered crash</td></tr>
<tr><th scope=\"row\">Kernel offset</th><td>disabled</td></tr>
<tr><th scope=\"row\">Told by</th><td><a href=\"#console-ramoops-0\">console-ramoops-0</a></td></tr>\n";
    assert!(rt; shows(rt, [NONE, NONE, NONE, CONSOLE], died)?);
    let lines = "<pre class=\"log\" id=\"console-ramoops-0\">
[    3.034160] sysrq: Trigger a crash
<mark>[    3.034971] Kernel panic - not syncing: sysrq triggered crash
</mark>[    3.036072] Kernel Offset: disabled
</pre>\n";
    assert!(rt; shows(rt, [NONE, NONE, NONE, CONSOLE], lines)?);
    let both = "<pre class=\"why\">Oops: a\nKernel panic - not syncing: Fatal exception</pre>\n";
    assert!(rt; shows(rt, [NONE, NONE, NONE, FATAL], both)?);
    let marked = "<pre class=\"log\" id=\"console-ramoops-0\">
<mark>[    3.0] Oops: a\n</mark><mark>[    3.1] Kernel panic - not syncing: Fatal exception\n</mark></pre>\n";
    assert!(rt; shows(rt, [NONE, NONE, NONE, FATAL], marked)?);
    let none = "</nav>\n<pre class=\"why\">no death: no record tells of the kernel</pre>
<p class=\"warn\"><b>Read with care.</b> No zone has a log. \
The region is blank, or its place or the parameters are not the kernel's.</p>\n</header>\n<main>\n";
    assert!(rt; shows(rt, [NONE, NONE, NONE, NONE], none)?);
    Ok(())
}

// A console that tells of a boot and of a death a day later, and one that tells of an orderly end.
#[test]
fn what_is_known(rt: HostRuntime) -> Result<(), Fail> {
    for (log, shown) in [
        (
            LONG,
            "<title>a: BUG: kernel NULL pointer dereference in boom_deref</title>\n<style>\n",
        ),
        (
            LONG,
            "<tr><th scope=\"row\">When</th><td>no date, 93784.500000 s after boot (1 d 2 h)</td></tr>
<tr><th scope=\"row\">CPU</th><td>1</td></tr>
<tr><th scope=\"row\">Task</th><td>PID: 40 Comm: init</td></tr>
<tr><th scope=\"row\">Kernel</th><td>Tainted: G O 6.1.0 #1</td></tr>
<tr><th scope=\"row\">Function</th><td>boom_deref+0x5/0x20 [boom]</td></tr>
<tr><th scope=\"row\">Signature</th><td>BUG: kernel NULL pointer dereference in boom_deref</td></tr>
<tr><th scope=\"row\">Hardware</th><td>QEMU Standard PC</td></tr>
<tr><th scope=\"row\">Modules</th><td>boom(O) lkdtm</td></tr>
<tr><th scope=\"row\">Version</th><td>6.1.0 (gcc 12) #1 SMP</td></tr>
<tr><th scope=\"row\">Command line</th><td>console=ttyS0 panic=5</td></tr>
<tr><th scope=\"row\">Told by</th>",
        ),
        (
            ORDERLY,
            "<title>a: no death: an orderly restart</title>\n<style>\n",
        ),
        (
            ORDERLY,
            "</nav>
<pre class=\"why\">no death: an orderly restart</pre>
<table class=\"fact\">
<tr><th scope=\"row\">When</th><td>no date, 312.884310 s after boot (5 min 12 s)</td></tr>
<tr><th scope=\"row\">Last line</th><td>reboot: Restarting system</td></tr>
<tr><th scope=\"row\">Told by</th><td><a href=\"#console-ramoops-0\">console-ramoops-0</a></td></tr>
<tr><th scope=\"row\">Read</th><td><span class=\"ok\">clean</span></td></tr>
</table>
</header>
<main>
",
        ),
    ] {
        assert!(rt; shows(rt, [NONE, NONE, NONE, log], shown)?, "{shown}");
    }
    Ok(())
}

// The summary of each record has its telling line, with the function that is named below it, and a dump's first line.
#[test]
fn telling_lines_of_the_list(rt: HostRuntime) -> Result<(), Fail> {
    for record in [
        "<details>\n<summary><span class=\"say\">BUG: kernel NULL pointer dereference, address: 0000000000000000
<span>lkdtm_EXCEPTION+0x8/0x14 [lkdtm]</span></span>
<b>dmesg-ramoops-0</b><span>Oops#7 Part1</span><span>2026-11-26 23:44:14.642000 UTC</span>",
        "<details>\n<summary><span class=\"say\">Kernel panic - not syncing: sysrq triggered crash</span>
<b>dmesg-ramoops-1</b><span>Panic#8 Part1</span><mark>tells why it died</mark>\
<span>2026-11-26 23:44:14.688627 UTC</span>",
        "<details>\n<summary><span class=\"say\">Kernel panic - not syncing: sysrq triggered crash</span>
<b>console-ramoops-0</b><span>",
    ] {
        assert!(rt;
            shows(rt, [OOPS, PANIC, NONE, CONSOLE], record)?,
            "{record}"
        );
    }
    let hostile = "<summary><span class=\"say\">Kernel panic - not syncing: &lt;b&gt;\\xff
<span>sysrq_handle_crash+0x16/0x20</span></span>\n<b>dmesg-ramoops-0</b>";
    assert!(rt; shows(rt, [NAMED, NONE, NONE, NONE], hostile)?);
    // a fatal exception is told by the oops above it
    let fatal =
        "<span class=\"say\">Oops: a</span>\n<b>console-ramoops-0</b><mark>tells why it died</mark>";
    assert!(rt; shows(rt, [NONE, NONE, NONE, FATAL], fatal)?);
    let silent =
        "<summary><span class=\"say\">no telling line</span>\n<b>console-ramoops-0</b><span>";
    assert!(rt; shows(rt, [NONE, NONE, NONE, b"[    1.000000] a\n"], silent)?);
    Ok(())
}

// Two dumps with one line share a row, and one without a line has a row of its own.
#[test]
fn dumps_by_telling_line(rt: HostRuntime) -> Result<(), Fail> {
    let table = "can be wrong.</p>
<div class=\"scroll\" tabindex=\"0\" role=\"region\" aria-label=\"Dumps by telling line\">\
<table class=\"grid stack\">
<caption>Dumps by telling line</caption>
<tr><th scope=\"col\" class=\"n\">Dumps</th><th scope=\"col\">Telling line</th>\
<th scope=\"col\">Newest of them</th><th scope=\"col\">Its time</th></tr>
<tr><td class=\"n\">2 &times;</td><td class=\"wrap\">Kernel panic - not syncing: &lt;b&gt;\\xff</td>\
<td><a href=\"#dmesg-ramoops-0\">dmesg-ramoops-0</a></td><td>2025-11-27 00:04:18.836908 UTC</td></tr>
<tr><td class=\"n\">1 &times;</td><td class=\"wrap\">no telling line</td>\
<td><a href=\"#dmesg-ramoops-1\">dmesg-ramoops-1</a></td><td>2026-11-26 23:44:15.000000 UTC</td></tr>
</table></div>
<details open>\n<summary><span class=\"say\">";
    assert!(rt; shows(rt, [NAMED, SILENT, NAMED, NONE], table)?);
    assert!(rt; !shows(rt, [NAMED, NONE, NONE, CONSOLE], "Dumps by telling line")?);
    Ok(())
}

// The newest dump is unfolded if it does not tell, and no other record.
#[test]
fn unfolded_dump(rt: HostRuntime) -> Result<(), Fail> {
    let open = "<details open>";
    assert!(rt; !shows(rt, [OOPS, PANIC, NONE, CONSOLE], open)?);
    assert!(rt; !shows(rt, [NONE, NONE, NONE, CONSOLE], open)?);
    assert!(rt; !shows(rt, [NONE, NONE, NONE, NONE], open)?);
    let newest = "<details open>\n<summary><span class=\"say\">no telling line</span>
<b>dmesg-ramoops-1</b><span>Panic#9 Part1</span><span>2026-11-26 23:44:15.000000 UTC</span>";
    assert!(rt; shows(rt, [OOPS, SILENT, NONE, CONSOLE], newest)?);
    let older = "\n<details>\n<summary><span class=\"say\">BUG: kernel";
    assert!(rt; shows(rt, [OOPS, SILENT, NONE, CONSOLE], older)?);
    let console = "\n<details>\n<summary><span class=\"say\">Kernel panic";
    assert!(rt; shows(rt, [OOPS, SILENT, NONE, CONSOLE], console)?);
    // no record tells
    let silent =
        "<details open>\n<summary><span class=\"say\">no telling line</span>\n<b>dmesg-ramoops-2</b>";
    assert!(rt; shows(rt, [NONE, NONE, SILENT, NONE], silent)?);
    // the console has a panic that the dump lacks
    let dump = "<details open>\n<summary><span class=\"say\">BUG: kernel";
    assert!(rt; shows(rt, [OOPS, NONE, NONE, CONSOLE], dump)?);
    Ok(())
}

/// The image of 36 dumps of 256 bytes and a console, which holds these logs at these zones.
fn image_of_many(alloc: Global, logs: &[(u16, &[u8])]) -> Result<Vec<u8>, Fail> {
    let mut bytes = Vec::new(alloc);
    for (zone, log) in logs {
        bytes.resize(256 * usize::from(*zone), 0)?;
        let used = u32::try_from(log.len())?.to_le_bytes();
        bytes.extend_from_slice(b"DBGC")?;
        bytes.extend_from_slice(&used)?;
        bytes.extend_from_slice(&used)?;
        bytes.extend_from_slice(log)?;
    }
    bytes.resize(37 * 256, 0)?;
    Ok(bytes)
}

/// Its page.
fn page_of_many(alloc: Global, logs: &[(u16, &[u8])]) -> Result<Vec<u8>, Fail> {
    let params = Params {
        mem: 37 * 256,
        dump: 256,
        console: 256,
        ..worked_deaths::PARAMS
    };
    let report = report_on(alloc, &params, image_of_many(alloc, logs)?)?;
    page_of(alloc, b"a", &params, &report)
}

/// The page of dumps in the zones below a number, all of one time, but for the later one of zone 34.
fn page_of_dumps(alloc: Global, count: u16) -> Result<Vec<u8>, Fail> {
    let mut logs: Vec<(u16, &[u8])> = Vec::new(alloc);
    for zone in 0..count {
        let log: &[u8] = if zone == 34 {
            b"====2.0-D\nb\n"
        } else {
            b"====1.0-D\na\n"
        };
        logs.push((zone, log))?;
    }
    page_of_many(alloc, logs.as_slice())
}

// 32 dumps make a group. The first one is open if the newest dump is.
#[test]
fn groups_of_dumps(rt: HostRuntime) -> Result<(), Fail> {
    let page = page_of_dumps(rt.alloc(), 36)?;
    let text = str::from_utf8(page.as_slice())?;
    for shown in [
        "<details class=\"group\" open>\n<summary><b>Newest dumps</b></summary>
<details open>\n<summary><span class=\"say\">no telling line</span>\n<b>dmesg-ramoops-34</b>",
        "b\n</pre>\n</details>
<details>\n<summary><span class=\"say\">no telling line</span>\n<b>dmesg-ramoops-0</b>",
        "a\n</pre>\n</details>\n</details>
<details class=\"group\">\n<summary><b>Dumps after the newest 32</b></summary>
<details>\n<summary><span class=\"say\">no telling line</span>\n<b>dmesg-ramoops-31</b>",
        "a\n</pre>\n</details>
<details>\n<summary><span class=\"say\">no telling line</span>\n<b>dmesg-ramoops-35</b>",
        "a\n</pre>\n</details>\n</details>\n<h2 id=\"region\">",
    ] {
        assert!(rt; text.contains(shown), "{shown}");
    }
    Ok(())
}

// 32 dumps have no group.
#[test]
fn no_group_of_dumps(rt: HostRuntime) -> Result<(), Fail> {
    let page = page_of_dumps(rt.alloc(), 32)?;
    assert!(rt; !has(&page, "class=\"group\"")?);
    assert!(rt; !shows(rt, [OOPS, PANIC, NONE, CONSOLE], "class=\"group\"")?);
    let page = page_of_dumps(rt.alloc(), 33)?;
    assert!(rt; has(&page, "<b>Dumps after the newest 32</b>")?);
    Ok(())
}

/// Whether a page lists records of these names one after another.
fn lists(page: &[u8], names: &[&str]) -> Result<bool, Fail> {
    let mut rest = str::from_utf8(page)?;
    for name in names {
        match rest.split_once("</span>\n<b>") {
            Some((_, after)) if after.starts_with(*name) => rest = after,
            _ => return Ok(false),
        }
    }
    Ok(!rest.contains("</span>\n<b>"))
}

// The latest time first; equal times, and the console, which has none, as they are listed.
#[test]
fn newest_records_first(rt: HostRuntime) -> Result<(), Fail> {
    let page = page_of_many(
        rt.alloc(),
        &[
            (0, b"====1.000005-D\na\n"),
            (1, b"====3.000000-D\nb\n"),
            (2, b"====1.000006-D\nc\n"),
            (3, b"====3.000000-D\nd\n"),
            (4, b"====20.0-D\ne\n"),
            (36, b"f\n"),
        ],
    )?;
    let names = [
        "dmesg-ramoops-4<",
        "dmesg-ramoops-1<",
        "dmesg-ramoops-3<",
        "dmesg-ramoops-2<",
        "dmesg-ramoops-0<",
        "console-ramoops-0<",
    ];
    assert!(rt; lists(&page, &names)?);
    let page = page_of_many(rt.alloc(), &[(36, b"f\n")])?;
    assert!(rt; lists(&page, &["console-ramoops-0<"])?);
    Ok(())
}

// Fifteen lines have rows; the last row counts the other dumps.
#[test]
fn more_lines_than_rows(rt: HostRuntime) -> Result<(), Fail> {
    let page = page_of_many(
        rt.alloc(),
        &[
            (0, b"====1.0-D\nKernel panic - not syncing: a\n"),
            (1, b"====2.0-D\nKernel panic - not syncing: b\n"),
            (2, b"====3.0-D\nKernel panic - not syncing: c\n"),
            (3, b"====4.0-D\nKernel panic - not syncing: d\n"),
            (4, b"====5.0-D\nKernel panic - not syncing: e\n"),
            (5, b"====6.0-D\nKernel panic - not syncing: f\n"),
            (6, b"====7.0-D\nKernel panic - not syncing: g\n"),
            (7, b"====8.0-D\nKernel panic - not syncing: h\n"),
            (8, b"====9.0-D\nKernel panic - not syncing: i\n"),
            (9, b"====10.0-D\nKernel panic - not syncing: j\n"),
            (10, b"====11.0-D\nKernel panic - not syncing: k\n"),
            (11, b"====12.0-D\nKernel panic - not syncing: l\n"),
            (12, b"====13.0-D\nKernel panic - not syncing: m\n"),
            (13, b"====14.0-D\nKernel panic - not syncing: n\n"),
            (14, b"====15.0-D\nKernel panic - not syncing: o\n"),
            (15, b"====16.0-D\nKernel panic - not syncing: p\n"),
            (16, b"====17.0-D\nKernel panic - not syncing: q\n"),
        ],
    )?;
    let last =
        "<tr><td class=\"n\">1 &times;</td><td class=\"wrap\">Kernel panic - not syncing: o</td>\
<td><a href=\"#dmesg-ramoops-14\">dmesg-ramoops-14</a></td><td>1970-01-01 00:00:15.000000 UTC</td></tr>
<tr><td class=\"n\">2 &times;</td><td class=\"wrap\">other telling lines</td>\
<td><a href=\"#dmesg-ramoops-16\">dmesg-ramoops-16</a></td><td>1970-01-01 00:00:17.000000 UTC</td></tr>
</table></div>\n";
    assert!(rt; str::from_utf8(page.as_slice())?.contains(last));
    Ok(())
}

// Eight lines above the telling line and 16 below it. The others are folded, and the list has none of them again.
#[test]
fn lines_around_the_death(rt: HostRuntime) -> Result<(), Fail> {
    let mut log = Vec::new(rt.alloc());
    log.extend_from_slice(b"a0\na1\na2\na3\na4\na5\na6\na7\na8\na9\n")?;
    log.extend_from_slice(b"Kernel panic - not syncing: x\n")?;
    log.extend_from_slice(b"b0\nb1\nb2\nb3\nb4\nb5\nb6\nb7\nb8\nb9\n")?;
    log.extend_from_slice(b"c0\nc1\nc2\nc3\nc4\nc5\nc6\nc7\nc8\nc9\n")?;
    let shown = "<details>\n<summary>Lines before</summary>\n<pre class=\"log\">
a0\na1
</pre>\n</details>\n<pre class=\"log\" id=\"console-ramoops-0\">
a2\na3\na4\na5\na6\na7\na8\na9
<mark>Kernel panic - not syncing: x
</mark>b0\nb1\nb2\nb3\nb4\nb5\nb6\nb7\nb8\nb9\nc0\nc1\nc2\nc3\nc4\nc5
</pre>\n<details>\n<summary>Lines after</summary>\n<pre class=\"log\">
c6\nc7\nc8\nc9
</pre>\n</details>\n<h2 id=\"records\">";
    assert!(rt; shows(rt, [NONE, NONE, NONE, log.as_slice()], shown)?);
    let listed = "</summary>\n<p class=\"note\">Its lines stand above: \
<a href=\"#console-ramoops-0\">console-ramoops-0</a></p>\n</details>\n<h2 id=\"region\">";
    assert!(rt; shows(rt, [NONE, NONE, NONE, log.as_slice()], listed)?);
    Ok(())
}

#[test]
fn lines_by_level(rt: HostRuntime) -> Result<(), Fail> {
    let log = b"<0>a\n<1>b\n<2>c\n<3>d\n<4>e\n<5>f\n<6>g\n<7>h\n<11>i\nj";
    let shown = "<pre class=\"log\" id=\"console-ramoops-0\">
<i class=\"l0\">&lt;0&gt;a
</i><i class=\"l1\">&lt;1&gt;b
</i><i class=\"l2\">&lt;2&gt;c
</i><i class=\"l3\">&lt;3&gt;d
</i><i class=\"l4\">&lt;4&gt;e
</i><i class=\"l5\">&lt;5&gt;f
</i>&lt;6&gt;g
<i class=\"l7\">&lt;7&gt;h
</i>&lt;11&gt;i
j</pre>\n";
    assert!(rt; shows(rt, [NONE, NONE, NONE, log], shown)?);
    Ok(())
}

// A time past the calendar of a page, and the last second before.
#[test]
fn times(rt: HostRuntime) -> Result<(), Fail> {
    for (log, shown) in [
        (
            &b"====8639999999.999999-D\n"[..],
            "<span>2243-10-16 23:59:59.999999 UTC</span>",
        ),
        (b"====8640000000.5-D\n", "<span>8640000000.000005 s</span>"),
        (
            b"====951782400.1000000-D\n",
            "<span>2000-02-29 00:00:00.1000000 UTC</span>",
        ),
    ] {
        assert!(rt; shows(rt, [log, NONE, NONE, NONE], shown)?, "{shown}");
    }
    Ok(())
}

// The newest other dump that tells, and what its report names: one without a telling line is passed, and so is one that is older.
#[test]
fn what_was_before_it(rt: HostRuntime) -> Result<(), Fail> {
    let before =
        "<tr><th scope=\"row\">Before it</th><td><a href=\"#dmesg-ramoops-1\">dmesg-ramoops-1</a>, \
2026-11-26 23:44:14.642000 UTC
BUG: kernel NULL pointer dereference, address: 0000000000000000
CPU 0
Function lkdtm_EXCEPTION+0x8/0x14 [lkdtm]
Task PID: 40 Comm: init</td></tr>
<tr><th scope=\"row\">Told by</th><td><a href=\"#dmesg-ramoops-0\">dmesg-ramoops-0</a>";
    assert!(rt; shows(rt, [PANIC, OOPS, NAMED, CONSOLE], before)?);
    let silent = b"====1795736654.650000-D\nnothing\n";
    assert!(rt; shows(rt, [PANIC, OOPS, silent, NONE], before)?);
    let by_console =
        "<tr><th scope=\"row\">Before it</th><td><a href=\"#dmesg-ramoops-1\">dmesg-ramoops-1</a>, \
2026-11-26 23:44:14.642000 UTC
BUG: kernel NULL pointer dereference, address: 0000000000000000
CPU 0
Function lkdtm_EXCEPTION+0x8/0x14 [lkdtm]
Task PID: 40 Comm: init</td></tr>
<tr><th scope=\"row\">Told by</th><td><a href=\"#console-ramoops-0\">console-ramoops-0</a></td></tr>\n";
    assert!(rt; shows(rt, [NAMED, OOPS, NONE, CONSOLE], by_console)?);
    assert!(rt; !shows(rt, [PANIC, NONE, silent, CONSOLE], "Before it")?);
    Ok(())
}

// A dump outlives boots, the console does not.
#[test]
fn whether_the_console_tells_the_same(rt: HostRuntime) -> Result<(), Fail> {
    let same =
        "dmesg-ramoops-0</a>\nthe console has the same line</td></tr>\n<tr><th scope=\"row\">Read</th><td>\
<span class=\"ok\">clean</span></td></tr>\n</table>\n";
    assert!(rt; shows(rt, [PANIC, OOPS, NONE, CONSOLE], same)?);
    let other = "dmesg-ramoops-0</a>
the console lacks this line: it can be of another boot</td></tr>\n<tr><th scope=\"row\">Read</th><td>\
<span class=\"ok\">clean</span></td></tr>\n</table>\n";
    let later = b"[    1.000000] Linux version 6.1.0\n";
    assert!(rt; shows(rt, [PANIC, OOPS, NONE, later], other)?);
    // neither without a console, nor if the console tells
    assert!(rt; !shows(rt, [PANIC, OOPS, NONE, NONE], "the console")?);
    assert!(rt; !shows(rt, [NAMED, NONE, NONE, CONSOLE], "\nthe console")?);
    Ok(())
}

const CARE: &str = "<p class=\"warn\"><b>Read with care.</b> ";

#[test]
fn the_console_tells_and_not_the_dump(rt: HostRuntime) -> Result<(), Fail> {
    let lacks = "</pre>
<p class=\"warn\"><b>Read with care.</b> The reason comes from the console; the newest dump, \
<a href=\"#dmesg-ramoops-0\">dmesg-ramoops-0</a>, does not contain all of it.</p>\n<table class=\"fact\">\n";
    assert!(rt; shows(rt, [OOPS, NONE, NONE, CONSOLE], lacks)?);
    assert!(rt; shows(rt, [SILENT, NONE, NONE, CONSOLE], lacks)?);
    assert!(rt; !shows(rt, [PANIC, NONE, NONE, CONSOLE], CARE)?);
    assert!(rt; !shows(rt, [NONE, NONE, NONE, CONSOLE], CARE)?);
    Ok(())
}

// Nine of the header's parity bytes are lost, and all of the first block. Both are read as they stand.
#[test]
fn warnings_of_bad_parts(rt: HostRuntime) -> Result<(), Fail> {
    let text = b"Kernel panic - not syncing: a\n";
    let mut bytes = Vec::new(rt.alloc());
    bytes.extend_from_slice(&[0x44, 0x42, 0x47, 0x43, 0xe8, 3, 0, 0, 0xe8, 3, 0, 0])?;
    bytes.extend_from_slice(text)?;
    bytes.resize(4089, 0)?;
    bytes.extend_from_slice(&[249, 61, 125, 1, 138, 99, 55])?;
    let page = console_page(rt.alloc(), 16, bytes)?;
    let warned = "<pre class=\"why\">Kernel panic - not syncing: a</pre>
<p class=\"warn\"><b>Read with care.</b> The record that tells it has bad parts: its lines can be wrong.</p>
<p class=\"warn\"><b>Read with care.</b> Bad headers: 1. \
A log lost there may be newer than what stands below.</p>
<p class=\"warn\"><b>Read with care.</b> More than half of the zones have bad parts. \
The place or the parameters can be other than the kernel's.</p>
<table class=\"fact\">\n";
    assert!(rt; str::from_utf8(page.as_slice())?.contains(warned));
    let read =
        "<b>console-ramoops-0</b><mark>tells why it died</mark><span>1048 bytes</span><span class=\"bad\">bad 2</span></summary>\n";
    assert!(rt; str::from_utf8(page.as_slice())?.contains(read));
    Ok(())
}

#[test]
fn how_a_record_read(rt: HostRuntime) -> Result<(), Fail> {
    let page = console_page(rt.alloc(), 16, damaged_zeros(rt.alloc())?)?;
    let text = str::from_utf8(page.as_slice())?;
    let read = "<b>console-ramoops-0</b><span>1048 bytes</span>\
<span class=\"bad\">bad 1</span><span class=\"fix\">corrected 6</span></summary>\n";
    assert!(rt; text.contains(read));
    assert!(rt; !text.contains("Bad headers"));
    Ok(())
}

#[test]
fn parameters(rt: HostRuntime) -> Result<(), Fail> {
    let page = console_page(rt.alloc(), 16, damaged_zeros(rt.alloc())?)?;
    let table = "</table></div>
<h2 id=\"layout\">Parameters</h2>
<p class=\"note\">As the zones were read. Sizes and parity are in bytes.</p>
<div class=\"scroll\" tabindex=\"0\" role=\"region\" aria-label=\"Parameters\"><table class=\"grid\">
<tr><th scope=\"col\">Parameter</th><th scope=\"col\" class=\"n\">Value</th></tr>
<tr><th scope=\"row\">mem_size</th><td class=\"n\">4096</td></tr>
<tr><th scope=\"row\">record_size</th><td class=\"n\">0</td></tr>
<tr><th scope=\"row\">console_size</th><td class=\"n\">4096</td></tr>
<tr><th scope=\"row\">ftrace_size</th><td class=\"n\">0</td></tr>
<tr><th scope=\"row\">pmsg_size</th><td class=\"n\">0</td></tr>
<tr><th scope=\"row\">block_size</th><td class=\"n\">128</td></tr>
<tr><th scope=\"row\">ecc</th><td class=\"n\">16</td></tr>
<tr><th scope=\"row\">ecc_dump</th><td class=\"n\">16</td></tr>
<tr><th scope=\"row\">ecc_console</th><td class=\"n\">16</td></tr>
<tr><th scope=\"row\">ecc_ftrace</th><td class=\"n\">16</td></tr>
<tr><th scope=\"row\">ecc_pmsg</th><td class=\"n\">16</td></tr>
<tr><th scope=\"row\">cpus</th><td class=\"n\">1</td></tr>
<tr><th scope=\"row\">ftrace_sig</th><td class=\"n\">0</td></tr>
<tr><th scope=\"row\">order</th><td>console,ftrace,pmsg</td></tr>
<tr><th scope=\"row\">byte_order</th><td>little</td></tr>
</table></div>
</main>\n";
    assert!(rt; str::from_utf8(page.as_slice())?.contains(table));
    Ok(())
}
