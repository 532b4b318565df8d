/// How all pages look.
pub const SHEET: &str =
    r##":root{--back:#fff;--text:#1f2328;--faint:#59636e;--line:#d0d7de;--bar:#ddf4ff;--edge:#54aeff;--run:#8250df;--red:#cf222e;--seen:#bf5b04;--lit:#fff8c5}
@media(prefers-color-scheme:dark){:root{--back:#0d1117;--text:#e6edf3;--faint:#9198a1;--line:#30363d;--bar:#0c2d6b;--edge:#388bfd;--run:#d2a8ff;--red:#ff7b72;--seen:#f0a04b;--lit:#4d3800;color-scheme:dark}}
body{font:14px/1.45 system-ui,sans-serif;margin:0 16px 16px;background:var(--back);color:var(--text)}
[hidden]{display:none!important}
h1{font-size:20px;margin:2px 0;overflow-wrap:anywhere}
h1.illegal,h1.log{color:var(--red)}
h2{font-size:15px;margin:12px 0 0;overflow-wrap:anywhere}
p{margin:2px 0;overflow-wrap:anywhere}
.faint,small{color:var(--faint)}
small{display:block;font-size:12px;line-height:1.3;overflow-wrap:anywhere}
#file{margin-top:12px}
#bar{margin:8px 0;display:flex;gap:4px 20px;flex-wrap:wrap;align-items:center}
#bar label{display:flex;gap:6px;align-items:center}
#legend{display:flex;gap:2px 16px;flex-wrap:wrap;font-size:12px;color:var(--faint);margin:6px 0}
#legend span{display:flex;gap:5px;align-items:center}
#view{display:flex;border:1px solid var(--line);border-radius:6px;overflow:auto;max-height:64vh}
#names{flex:none;position:sticky;left:0;z-index:1;background:var(--back);border-right:1px solid var(--line)}
#names div{box-sizing:border-box;padding:0 10px;font-weight:600;display:flex;flex-direction:column;justify-content:center;max-width:160px}
#names small{font-weight:400;font-size:11px;white-space:nowrap;overflow:hidden;text-overflow:ellipsis}
@media(max-width:600px){#names div{max-width:76px;padding:0 6px}}
#track{position:relative;flex:none}
#track svg{position:absolute;top:0;display:block}
svg text{font:12px system-ui,sans-serif;fill:var(--text)}
svg .faint{fill:var(--faint);font-size:10px}
svg .lane{stroke:var(--line)}
svg .bar{fill:var(--bar);stroke:var(--edge)}
svg .open{stroke-dasharray:4 3}
svg .bar.wrong{stroke:var(--red)}
svg .run{fill:none;stroke:var(--run);stroke-width:1.5;opacity:.55}
svg .step{cursor:pointer}
svg .move{fill:var(--run)}
svg .ends{stroke:var(--run);stroke-width:2;fill:none}
svg .end{stroke:var(--text);stroke-width:2;fill:none}
svg .line{fill:var(--back);stroke:var(--edge);stroke-width:1.5}
svg .seen{fill:var(--seen);stroke:var(--back)}
svg text.seen{stroke:none;font-weight:600}
svg .tick{stroke:var(--faint);stroke-dasharray:2 3}
svg .wrong{stroke:var(--red);stroke-width:2}
svg .cross{pointer-events:none;fill:none}
svg text.wrong{fill:var(--red);stroke:none;font-weight:600}
svg .chosen{fill:var(--lit);opacity:.7}
svg .wait{fill:none;stroke:var(--faint);stroke-width:1.5}
svg .head{fill:var(--faint)}
svg .node{fill:var(--back);stroke:var(--faint)}
svg .node.held{fill:var(--bar);stroke:var(--edge)}
svg .node.wrong{stroke:var(--red);stroke-width:2}
#state{display:flex;gap:10px 24px;flex-wrap:wrap;align-items:flex-start}
#state>*{max-width:min(420px,100%);margin:6px 0 0}
figure{overflow-x:auto}
table{border-collapse:collapse}
th,td{border:1px solid var(--line);padding:2px 7px;text-align:left;vertical-align:top;overflow-wrap:break-word}
th{font-weight:600}
tr.lit td{background:var(--lit)}
"##;
