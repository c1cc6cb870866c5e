//! The style of a page.
//!
//! In narrow windows and in print, lines are in one column, each after the name of its session. On
//! wide screens each session has a column with its name above, and the name in a row is hidden from
//! the eye alone: a screen reader reads it. Each page of a print begins with the title.

/// The end of the title, and the style, light and dark.
pub(crate) const STYLE: &str =
    "</title><style>:root{color-scheme:light dark;--bg:light-dark(#fcfcfa,#16181c);--fg:light-dark(#1c1e21,#dcdfe4);--dim:light-dark(#6b7078,#8b919b);--rule:light-dark(#e4e4df,#2a2e35);--card:light-dark(#fff,#1c1f24);
--c:light-dark(#c22f2f,#ff7b72);--r:light-dark(#b35900,#f0a04b);--s:light-dark(#a08a3c,#b9a55c);--k:light-dark(#2f6fb5,#79b4f2);--u:light-dark(#b9bcc2,#4b515b);--q:light-dark(#8b3fb0,#d19be8);--del:light-dark(#fbe3e1,#4a2224);--ins:light-dark(#dff2e1,#1d3b26)}
:root:has(#dark:checked){color-scheme:dark}
*{box-sizing:border-box}html{scroll-padding-top:6rem}body{margin:0;background:var(--bg);color:var(--fg);font:15px/1.5 system-ui,sans-serif}
code,pre,time,b,.f ins,.f del{font-family:ui-monospace,\"DejaVu Sans Mono\",monospace;font-size:12.5px;font-weight:400}a{color:inherit}
header{position:sticky;top:0;z-index:3;display:flex;gap:1.5rem;align-items:center;padding:.5rem 2rem;background:var(--bg);border-bottom:1px solid var(--rule)}
h1{font-size:1rem;margin:0;min-width:0;overflow-wrap:anywhere}nav{display:flex;gap:1rem;flex:1}nav a{color:var(--dim);text-decoration:none}#dark{position:absolute;opacity:0}header label{cursor:pointer;font-size:1.2rem;border-radius:4px}header label:focus-within{outline:2px solid var(--k)}
#q{font:inherit;font-size:13px;padding:.2rem .6rem;width:16rem;background:var(--card);color:var(--fg);border:1px solid var(--rule);border-radius:6px}
main{max-width:90rem;margin:auto;padding:1rem 2rem 4rem;overflow-wrap:anywhere}.lead{font-size:1.15rem;max-width:60rem;margin:1rem 0 1.5rem}
h2{font-size:1.15rem;margin:2.5rem 0 .6rem}h2 small{font-weight:400;color:var(--dim);margin-left:.6rem}h3{font-size:.95rem;margin:1rem 0 .2rem}h4{margin:0;padding:1.2rem .6rem .4rem;font-size:.85rem;color:var(--dim)}
.map{display:grid;grid-template-columns:fit-content(35%) minmax(0,1fr);gap:4px 1rem;align-items:center;font-size:13px}.map span{color:var(--dim);text-align:right}.map svg{width:100%;height:20px;background:var(--card);border-radius:3px}
.map path{stroke-width:1;vector-effect:none}.c{--x:var(--c)}.r{--x:var(--r)}.s{--x:var(--s)}.k{--x:var(--k)}.u{--x:var(--u)}path{stroke:var(--x)}
.key{display:flex;flex-wrap:wrap;gap:.4rem 1.4rem;margin:.8rem 0;font-size:13px}.key label{cursor:pointer}.key input{accent-color:var(--x);vertical-align:-2px;margin:0 .4rem 0 0}.key i,.l i{font-style:normal;color:var(--x);display:inline-block;width:1.2em}
summary{cursor:pointer;list-style:none}summary::-webkit-details-marker{display:none}
.f{border-bottom:1px solid var(--rule)}.f>summary{display:grid;grid-template-columns:3.2rem minmax(0,1fr) minmax(0,1fr);gap:.2rem 1.2rem;align-items:baseline;padding:.2rem .6rem}.f.c>summary{grid-template-columns:3.2rem 5rem minmax(0,1fr)}.f.c>summary code{grid-area:2/2/auto/-1}b.who{font-weight:600;color:var(--fg)}.f>summary:hover,.l>summary:hover{background:light-dark(#0000000a,#ffffff0d)}.f i{font-style:normal;color:var(--dim)}
.f span{color:var(--dim);font-size:13px}.f>summary ins,.f>summary del{color:var(--fg)}.f.c code{text-decoration:none}a.r,a.s{color:var(--x)}mark{background:color-mix(in srgb,var(--c) 16%,var(--card));color:inherit;border-radius:9px;padding:0 .6em;margin-left:.4em}.bar{display:inline-block;width:9rem;height:.6rem;margin-right:.6rem;border-radius:3px;background:linear-gradient(90deg,var(--r) calc(var(--p)*1%),var(--s) 0 calc((var(--p) + var(--q))*1%),var(--rule) 0)}.change>summary i{color:var(--r)}.restore>summary i{color:light-dark(#1a7f37,#56d364)}.remove>summary i{color:var(--c)}
ins,del,u{text-decoration:none;border-radius:3px;padding:0 .15em}ins{background:var(--ins)}del{background:var(--del)}u{color:var(--dim)}
pre{margin:.3rem 0;padding:.5rem .7rem;background:var(--card);border:1px solid var(--rule);border-radius:6px;overflow:auto;white-space:pre-wrap;max-height:26rem}.diff,.f>pre,.f>.pair,.f>p{margin:.3rem 0 .7rem 3.7rem}.diff ins,.diff del{display:inline-block;width:100%}
.cmd{background:none;border:0;padding:0;font-size:13.5px;font-weight:600}.io{color:var(--dim);font-size:13px;margin:.2rem 0}
.pair{display:grid;grid-template-columns:1fr 1fr;gap:.8rem}figure{margin:0;min-width:0}figcaption{font-size:12px;color:var(--dim)}
.t{border:1px solid var(--rule);border-radius:8px;background:var(--card)}.head{display:none}
.l>summary{display:grid;grid-template-columns:3rem clamp(4.6rem,14%,9rem) minmax(0,1fr);align-items:baseline}
.l>summary b{padding-left:.5rem;color:var(--dim)}.l>summary .who{padding:0 .3rem 0 0;color:var(--fg)}.l time{grid-area:2/1/auto/3;padding-left:.5rem;color:var(--dim)}
.l code{grid-area:1/3/3/-1;justify-self:start;max-width:100%;padding:.08rem .5rem .08rem .4rem;margin:1px 0 1px .35rem;border-left:3px solid var(--x);border-radius:2px 5px 5px 2px;background:color-mix(in srgb,var(--x) 13%,var(--card))}
.l.u code{background:var(--card);color:var(--dim)}.l.s code{color:var(--dim)}
.l.w code::after{content:\"saw another text\";font:11px system-ui;color:var(--x);margin-left:.7em}
.b{padding:.3rem 1rem 1rem;background:var(--bg);border-block:1px solid var(--rule)}.fold>summary{color:var(--dim);font-size:12.5px;padding:.15rem .5rem}.fold>summary::before{content:\"▸ \"}.fold[open]>summary::before{content:\"▾ \"}
.l:target>summary,.l.at>summary{outline:2px solid var(--x);outline-offset:-2px;border-radius:4px}
:root:has(#fc:not(:checked)) .l.c,:root:has(#fr:not(:checked)) .l.r,:root:has(#fs:not(:checked)) .l.s,:root:has(#fk:not(:checked)) .l.k,:root:has(#fu:not(:checked)) .l.u,:root:has(#fu:not(:checked)) .fold{display:none}
.q,.l i.q,.f i.q{font-style:normal;font-weight:700;color:var(--q);width:auto}.doubt{border-left:4px solid var(--q);background:color-mix(in srgb,var(--q) 9%,var(--card));border-radius:2px 6px 6px 2px;padding:.5rem 1rem;margin:0 0 1.5rem;max-width:60rem}.doubt p,.doubt ul{margin:.2rem 0}.doubt p{font-weight:600}.doubt ul{padding-left:1.4rem;font-size:14px}
footer{padding:2rem;text-align:center;color:var(--dim);font-size:13px}
@media(max-width:50rem){header{flex-wrap:wrap;gap:.3rem 1rem;padding:.5rem 1rem}.bar{width:4rem}.pair{grid-template-columns:1fr}main{padding:1rem}}
@media(min-width:40rem){.f.c>summary{grid-template-columns:3.2rem 7rem minmax(0,1fr) calc((100% - 5.6rem)/2)}.f.c>summary code{grid-area:auto}}
@media screen and (min-width:50.01rem){.t{--t:3.5rem;background:var(--card) linear-gradient(90deg,var(--rule) 1px,transparent 1px) calc(3.5rem + var(--t)) 0/calc((100% - 3.5rem - var(--t))/var(--n)) 100%}.t:has(time:not(:empty)){--t:6.6rem}
.head,.l>summary{display:grid;position:relative;grid-template-columns:3.5rem var(--t) repeat(var(--n),minmax(0,1fr));align-items:baseline}.head{position:sticky;top:2.9rem;z-index:2;background:var(--card);border-bottom:1px solid var(--rule);border-radius:8px 8px 0 0;padding:.3rem 0;font-weight:600}.head span{grid-column:calc(var(--i) + 3);padding-left:.7rem}
.l>summary b{padding-left:.7rem}.l>summary .who{position:absolute;width:1px;height:1px;padding:0;overflow:hidden;clip-path:inset(50%);white-space:nowrap}.l time{grid-area:auto;padding:0}.l code{grid-area:auto/calc(var(--i) + 3)/auto/-1}.b{padding-left:calc(3.9rem + var(--t))}.fold>summary{padding-left:calc(4.2rem + var(--t))}}
@media print{:root,:root:has(#dark:checked){color-scheme:light;--bg:#fff;--card:#fff;print-color-adjust:exact}body{display:table;table-layout:fixed;width:100%}header{display:table-header-group;position:static;break-inside:avoid}h1{padding-bottom:.3rem;margin-bottom:1rem;border-bottom:1px solid var(--rule)}main{display:table-row-group}
nav,#q,header label,footer,.key input,.l.u,.fold{display:none}.key .u::after,.key label:has(input:not(:checked))::after{content:\", not printed\"}summary,figure,p{break-inside:avoid}h2,h3{break-after:avoid}pre{max-height:none}}
@page{margin:15mm;@bottom-right{content:counter(page) \" / \" counter(pages);font:12px system-ui}}
</style>";
