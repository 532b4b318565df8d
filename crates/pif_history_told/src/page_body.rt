/// A page with a verdict before its looks.
pub const FRONT: &str = r##"<!DOCTYPE html>
<html lang="en"><head><meta charset="utf-8"><title>pif judge</title>
<meta name="viewport" content="width=device-width, initial-scale=1">
<style>
"##;

/// The same behind its looks, before its lines of JSON: its legend, and its parts.
pub const BODY: &str = r##"</style></head><body>
<p id="file" class="faint"></p>
<h1 id="verdict"></h1>
<div id="why"></div>
<div id="bar"><label id="switch" hidden><input type="checkbox" id="all"> show all</label>
<label>width <input type="range" id="width" min="6" max="80" value="30"></label>
<span class="faint">click a mark, or use the arrow keys</span></div>
<div id="legend">
<span><svg width="30" height="14"><rect class="bar" x="1" y="1" width="28" height="12" rx="3"/></svg>a call</span>
<span><svg width="30" height="14"><rect class="bar open" x="1" y="1" width="28" height="12" rx="3"/></svg>one without an answer</span>
<span><svg width="12" height="14"><circle class="line" cx="6" cy="7" r="5"/></svg>a line: its begin or answer</span>
<span><svg width="12" height="14"><circle class="move" cx="6" cy="7" r="4.5"/></svg>an effect, where the run has it</span>
<span><svg width="12" height="14"><path class="seen" d="M6 1l6 6-6 6-6-6z"/></svg>what was seen of a thread</span>
<span><svg width="12" height="14"><path class="end" d="M1 2l10 10m0-10l-10 10"/></svg>the end of a thread</span>
<span id="red" hidden><svg width="12" height="14"><path class="wrong" d="M1 2l10 10m0-10l-10 10"/></svg></span>
</div>
<div id="view"><div id="names"></div><div id="track"><svg></svg></div></div>
<h2 id="where"></h2>
<p id="words"></p>
<div id="state"></div>
<script type="application/json" id="lines">
"##;
