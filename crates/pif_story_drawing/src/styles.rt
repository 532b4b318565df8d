/// How a drawing looks, on a light and on a dark screen.
pub const STYLE: &str = "<style>\
    text{font:11px system-ui,-apple-system,'Segoe UI','DejaVu Sans',sans-serif;fill:#1f2328}\
    .page{fill:#fff}\
    .odd{fill:#f6f8fa}.even{fill:#fff}\
    .grid{stroke:#d1d9e0;fill:none}\
    .line{font-size:9px;fill:#59636e;text-anchor:middle}\
    .name{font-size:14px;font-weight:700}\
    .words{font:11px ui-monospace,SFMono-Regular,Menlo,Consolas,'DejaVu Sans Mono',monospace}\
    .answer{fill:#59636e}\
    .runs{fill:#1f2328}.on-runs{fill:#fff;font-size:10px}\
    .ready{fill:#fff;stroke:#818b98}.on-ready{fill:#59636e;font-size:10px}\
    .waits{fill:currentColor;fill-opacity:.08;stroke:currentColor;stroke-dasharray:4 3}\
    .on-waits{fill:currentColor;font-size:10px;font-weight:700}\
    .parked{fill:#d1d9e0;stroke:#818b98;stroke-dasharray:1 3}.on-parked{fill:#424a53;font-size:10px}\
    .stopped{fill:#59636e}.on-stopped{fill:#fff;font-size:10px}\
    .end{stroke:#1f2328;stroke-width:2;fill:none}.on-ended{fill:#59636e;font-size:10px}\
    .bar{fill:currentColor}.on-bar{fill:#fff;font-size:8px;font-weight:700}\
    .level{stroke:#59636e;stroke-width:1.5;fill:none}\
    .boosted{stroke:#e5440b;stroke-width:2.5}\
    .boost{fill:#ff6a2b;fill-opacity:.35}\
    .base{stroke:#59636e;stroke-dasharray:4 3;fill:none}\
    .number{font-size:9px;fill:#59636e}.hot{fill:#c93a00;font-weight:700}\
    .halo{stroke:#fff;stroke-width:5;stroke-opacity:.8;fill:none}\
    .given{stroke:currentColor;stroke-width:2;fill:none}.given-head,.tail{fill:currentColor}\
    .signal{stroke:#1f2328;stroke-width:1.5;stroke-dasharray:3 2;fill:none}.signal-head{fill:#1f2328}\
    .actor{fill:#1f2328;stroke:#fff;stroke-width:1.5}\
    .reach{stroke:#000;stroke-opacity:0;stroke-width:14;fill:none}\
    .again{font-size:10px;font-weight:700;fill:#59636e}\
    .h0{color:#1c65d6}.h1{color:#197a35}.h2{color:#7c4cd4}.h3{color:#0a7582}\
    .h4{color:#b53682}.h5{color:#7d5f00}.h6{color:#3d4fb5}.h7{color:#4b7600}\
    @media (prefers-color-scheme:dark){\
    text{fill:#e6edf3}\
    .page{fill:#0d1117}\
    .odd{fill:#151b23}.even{fill:#0d1117}\
    .grid{stroke:#2f3742}\
    .line,.answer,.on-ended{fill:#8b949e}\
    .runs{fill:#e6edf3}.on-runs{fill:#0d1117}\
    .ready{fill:#0d1117;stroke:#8b949e}.on-ready{fill:#b1bac4}\
    .waits{fill-opacity:.2}\
    .on-waits{fill:currentColor}\
    .parked{fill:#2f3742;stroke:#8b949e}.on-parked{fill:#b1bac4}\
    .stopped{fill:#57606a}.on-stopped{fill:#fff}\
    .end{stroke:#e6edf3}\
    .on-bar{fill:#0d1117}\
    .level,.base{stroke:#b1bac4}\
    .boosted{stroke:#ff8a4c}\
    .boost{fill:#ff7b39;fill-opacity:.4}\
    .number,.again{fill:#b1bac4}.hot{fill:#ffa36e}\
    .halo{stroke:#0d1117}\
    .signal{stroke:#e6edf3}.signal-head{fill:#e6edf3}\
    .actor{fill:#e6edf3;stroke:#0d1117}\
    .h0{color:#58a6ff}.h1{color:#3fb950}.h2{color:#bc8cff}.h3{color:#39c5cf}\
    .h4{color:#f778ba}.h5{color:#d4a72c}.h6{color:#91a7ff}.h7{color:#a5d63a}\
    }</style>\n";

/// What the signs of a drawing mean.
pub const LEGEND: &str = "\
    <g transform=\"translate(10 14)\">\
    <rect class=\"runs\" width=\"36\" height=\"15\"/><text class=\"on-runs\" x=\"5\" y=\"11\">runs</text>\
    <g transform=\"translate(46 0)\"><rect class=\"ready\" width=\"40\" height=\"15\"/>\
    <text class=\"on-ready\" x=\"5\" y=\"11\">ready</text></g>\
    <g class=\"h0\" transform=\"translate(96 0)\"><rect class=\"waits\" width=\"78\" height=\"15\"/>\
    <text class=\"on-waits\" x=\"5\" y=\"11\">waits for m1</text></g>\
    <g transform=\"translate(184 0)\"><rect class=\"parked\" width=\"78\" height=\"15\"/>\
    <text class=\"on-parked\" x=\"5\" y=\"11\">parked on c1</text></g>\
    <g transform=\"translate(272 0)\"><rect class=\"stopped\" width=\"96\" height=\"15\"/>\
    <text class=\"on-stopped\" x=\"5\" y=\"11\">stopped for good</text></g>\
    <g class=\"h0\" transform=\"translate(378 2)\"><rect class=\"bar\" width=\"36\" height=\"10\" rx=\"2\"/>\
    <text class=\"on-bar\" x=\"5\" y=\"8\">m1</text></g><text x=\"420\" y=\"11\">held</text></g>\n\
    <g transform=\"translate(10 40)\">\
    <rect class=\"boost\" width=\"36\" height=\"14\"/><path class=\"base\" d=\"M0 14h36\"/>\
    <path class=\"level boosted\" d=\"M0 0h36\"/>\
    <text x=\"42\" y=\"11\">boosted: effective priority above base</text>\
    <path class=\"level\" d=\"M262 7h30\"/><text x=\"298\" y=\"11\">priority</text>\
    <g class=\"h0\"><circle class=\"tail\" cx=\"360\" cy=\"1\" r=\"3\"/><path class=\"given\" d=\"M360 1v9\"/>\
    <path class=\"given-head\" d=\"M356 9h8l-4 6z\"/></g><text x=\"370\" y=\"11\">handed over</text>\
    <path class=\"signal\" d=\"M452 0v10\"/><path class=\"signal-head\" d=\"M448 9h8l-4 6z\"/>\
    <text x=\"462\" y=\"11\">signalled</text>\
    <circle class=\"actor\" cx=\"530\" cy=\"7\" r=\"4\"/><text x=\"540\" y=\"11\">acts</text></g>\n";
