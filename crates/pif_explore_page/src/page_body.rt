/// A page of an exploration before its looks.
pub const FRONT: &str = r##"<!DOCTYPE html>
<html lang="en"><head><meta charset="utf-8"><title>pif explore</title>
<meta name="viewport" content="width=device-width, initial-scale=1">
<style>
#found table{width:100%;margin:6px 0}
#found td:first-child{white-space:nowrap;width:1%}
#found tr[data-row]{cursor:pointer}
#found tr[data-row]:hover td,#found tr.lit td{background:var(--lit)}
td.bad{color:var(--red);font-weight:600}
pre{overflow-x:auto;border:1px solid var(--line);border-radius:6px;padding:6px 10px;margin:6px 0;font-size:12px}
summary{cursor:pointer;font-size:15px;font-weight:600;margin-top:12px}
"##;

/// The same behind its looks, before its lines of JSON: its parts, and its legend.
pub const BODY: &str = r##"</style></head><body>
<p id="file" class="faint">pif explore</p>
<h1 id="verdict"></h1>
<div id="why"></div>
<div id="found"></div>
<h2 id="shown"></h2>
<div id="bar"><label>width <input type="range" id="width" min="6" max="80" value="30"></label>
<span class="faint">click a row above, and a mark below, or use the arrow keys</span></div>
<div id="legend">
<span><svg width="30" height="14"><rect class="bar" x="1" y="1" width="28" height="12" rx="3"/></svg>a call</span>
<span><svg width="30" height="14"><rect class="bar open" x="1" y="1" width="28" height="12" rx="3"/></svg>one without an answer</span>
<span><svg width="12" height="14"><circle class="line" cx="6" cy="7" r="5"/></svg>a begin, an answer, or an access of a cell</span>
<span><svg width="12" height="14"><circle class="move" cx="6" cy="7" r="4.5"/></svg>an effect of a call</span>
<span><svg width="12" height="14"><path class="ends" d="M1 2l10 10m0-10l-10 10"/></svg>the end of a thread</span>
</div>
<div id="view"><div id="names"></div><div id="track"><svg></svg></div></div>
<h2 id="where"></h2>
<p id="words"></p>
<div id="state"></div>
<details><summary>The program</summary><pre id="program"></pre></details>
<script type="application/json" id="lines">
"##;
