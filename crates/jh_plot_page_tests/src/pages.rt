//! Plots, each with the page that the definition gives of it.

use crate::plots::{Drawn, asked};
use std::test::Fail;

/// What a page begins with, up to the style sheet.
const OPENING: &str =
    "<!DOCTYPE html>\n<html xmlns=\"http://www.w3.org/1999/xhtml\" lang=\"en\">\n<head>\n\
    <meta charset=\"utf-8\"/>\n<title>Plot</title>\n<style>\n";

/// What stands between the style sheet and the panels.
const BODY: &str = r##"</style>
</head>
<body>
<h1>Latencies and rates</h1>
<p>For each function: the latency of each call over the time at which it was asked for (a dot: it happened, <code>:ok</code>; a cross: it did not, <code>:fail</code>; a triangle: it is not known, <code>:info</code>), percentiles of these latencies, and how many calls a second ended so. A fault was active where the pictures are shaded: point there to see which.</p>
<svg xmlns="http://www.w3.org/2000/svg" width="0" height="0">
<defs>
<marker id="cross" markerUnits="userSpaceOnUse" viewBox="-4 -4 8 8" markerWidth="8" markerHeight="8"><path d="M-3-3l6 6m0-6l-6 6"/></marker>
<marker id="triangle" markerUnits="userSpaceOnUse" viewBox="-4 -4 8 8" markerWidth="8" markerHeight="8"><path d="M0-3l3 5h-6z"/></marker>
</defs>
</svg>
"##;

/// The page of the plot with no panel.
const EMPTY: &str =
    "<p>The history has no call, so there is nothing to draw.</p>\n</body>\n</html>\n";

/// The page of the full plot. `<back>`, `<latencies>`, `<points>`, `<percentiles>` and `<rates>` stand for the texts below.
const FULL: &str = r##"<section>
<h2>read &amp; write, calls: 1234</h2>
<back>
<latencies>
<points>
<path class="ok" d="M0-0h0M899-299h0"/>
<path class="fail" d="M7-80h0M5-1h0"/>
<path class="info" d="M7-80h0"/>
</g>
</svg>
</div>
<back>
<latencies>
<percentiles>
<path class="p50" d="M10-1 30-2 h0"/>
<path class="p95" d="M10-22 30-23 h0"/>
<path class="p99" d="M10-33 30-34 h0"/>
<path class="greatest" d="M10-299 30-298 h0"/>
</g>
</svg>
</div>
<back>
<rates>
<path class="ok" d="M450-120 h0"/>
<path class="fail" d="M450-6 h0"/>
<path class="info" d="M450-0 h0"/>
</g>
</svg>
</div>
</section>
<section>
<h2>, calls: 0</h2>
<back>
<latencies>
<points>
<path class="ok" d=""/>
<path class="fail" d=""/>
<path class="info" d=""/>
</g>
</svg>
</div>
<back>
<latencies>
<percentiles>
</g>
</svg>
</div>
<back>
<rates>
</g>
</svg>
</div>
</section>
</body>
</html>
"##;

/// What all pictures of the full plot begin with.
const BACK: &str = r##"<div class="picture">
<svg xmlns="http://www.w3.org/2000/svg" width="1000" height="370" viewBox="-80 -340 1000 370">
<path class="frame" d="M0 0V-299H899V0z"/>
<g class="shades">
<path d="M5 0V-299H120V0z"><title>:kill &lt;&quot;n1&quot;&gt;</title></path>
<path d="M300 0V-299H300V0z"><title>�
&amp;</title></path>
</g>
<g class="times">
<path d="M0 0v-299"/><text x="0" y="18">0 s</text>
<path d="M300 0v-299"/><text x="300" y="18">11.5 s</text>
<path d="M600 0v-299"/><text x="600" y="18">22.05 s</text>
<path d="M899 0v-299"/><text x="899" y="18">33.007 s</text>
</g>"##;

/// The axis of latencies.
const LATENCIES: &str = r##"<g class="levels">
<path d="M0-0h899"/><text x="-8" y="-0">1 ns</text>
<path d="M0-100h899"/><text x="-8" y="-100">10 &#181;s</text>
<path d="M0-200h899"/><text x="-8" y="-200">100 ms</text>
<path d="M0-299h899"/><text x="-8" y="-299">1 s</text>
</g>"##;

/// The legend of points.
const POINTS: &str = r##"<g class="points">
<text class="name" y="-318">Latencies</text>
<path class="ok" d="M150-322h0"/><text x="160" y="-318">:ok</text>
<path class="fail" d="M210-322h0"/><text x="220" y="-318">:fail</text>
<path class="info" d="M280-322h0"/><text x="290" y="-318">:info</text>"##;

/// The legend of percentiles.
const PERCENTILES: &str = r##"<g class="lines">
<text class="name" y="-318">Percentiles</text>
<path class="p50" d="M150-322h30"/><text x="186" y="-318">50 %</text>
<path class="p95" d="M240-322h30"/><text x="276" y="-318">95 %</text>
<path class="p99" d="M330-322h30"/><text x="366" y="-318">99 %</text>
<path class="greatest" d="M420-322h30"/><text x="456" y="-318">greatest</text>"##;

/// The axis of rates, and their legend.
const RATES: &str = r##"<g class="levels">
<path d="M0-0h899"/><text x="-8" y="-0">0/s</text>
<path d="M0-149h899"/><text x="-8" y="-149">50/s</text>
</g>
<g class="lines">
<text class="name" y="-318">Rates</text>
<path class="ok" d="M150-322h30"/><text x="186" y="-318">:ok</text>
<path class="fail" d="M240-322h30"/><text x="276" y="-318">:fail</text>
<path class="info" d="M330-322h30"/><text x="366" y="-318">:info</text>"##;

/// What a line of an expected page stands for.
fn meant_by(line: &'static str) -> &'static str {
    match line {
        "<back>" => BACK,
        "<latencies>" => LATENCIES,
        "<points>" => POINTS,
        "<percentiles>" => PERCENTILES,
        "<rates>" => RATES,
        _ => line,
    }
}

/// What a page has behind its body's opening, if it begins as pages do.
fn panels_in(page: &str) -> Option<&str> {
    let (_style, panels) = page.strip_prefix(OPENING)?.split_once(BODY)?;
    Some(panels)
}

/// Whether a page has these panels: each line of the expected text is the next one there.
fn has(page: &[u8], expected: &'static str) -> bool {
    let Some(mut rest) = str::from_utf8(page).ok().and_then(panels_in) else {
        return false;
    };
    for line in expected.lines() {
        match rest
            .strip_prefix(meant_by(line))
            .and_then(|rest| rest.strip_prefix('\n'))
        {
            Some(more) => rest = more,
            None => return false,
        }
    }
    rest.is_empty()
}

#[test]
fn says_that_there_is_no_call(rt: HostRuntime) -> Result<(), Fail> {
    let page = asked(rt.alloc(), Drawn::Empty).ok_or("no page")?;
    assert!(rt; has(&page, EMPTY));
    Ok(())
}

#[test]
fn draws_a_plot(rt: HostRuntime) -> Result<(), Fail> {
    let page = asked(rt.alloc(), Drawn::Full).ok_or("no page")?;
    assert!(rt; has(&page, FULL));
    Ok(())
}
